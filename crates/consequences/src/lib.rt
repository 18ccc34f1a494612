// Two consequences of the claim of crate `schedule`: lamps that fade together, and fades that never pass through a band of
// hues; and where a fade ends whose hue moved between command and start. No code: specs/ has the statements, proofs/ their
// proofs.
#![tactic(auto)]
