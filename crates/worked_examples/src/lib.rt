// Worked examples of document 01: the cases marked K ("Checked by sums") as one claim, and tables of answers, notice
// lists, runs, forms and makings. No code: specs/ has the tables and what is said of them, proofs/ the theorems.
#![tactic(auto)]
