// What a lamp of a row is given by a list of row calls and single calls, and the claim that it keeps its schedule: document 02,
// A.1. No code: specs/ has the definitions and the claim, proofs/ its proof.
#![tactic(auto)]
