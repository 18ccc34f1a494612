// The lines of a row: what they ask, and their answers. Document 02, A.1; docs/PROTOCOL.md.
#![tactic(auto)]

pub mod answers;
pub mod lines;
pub mod sum;
