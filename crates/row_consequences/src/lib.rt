// A consequence of the claim for rows: lamps of a row that fade together. No code: specs/ has the statement, proofs/ its proof.
#![tactic(auto)]
