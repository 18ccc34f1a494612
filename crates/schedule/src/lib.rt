// The schedule of a fade and the claim that every list of calls keeps it: document 01, "Demand 3's schedule". No code: specs/
// has the definitions and the claim, proofs/ its proof.
#![tactic(auto)]
