// Laws of signed numbers that the proofs of other crates cite; they stand in proofs/. There is no code.
#![tactic(auto)]
