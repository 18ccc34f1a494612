// A lamp in the lines of `replay`: its fields, tasks and running records read, and answers written.
#![tactic(auto)]

pub mod answers;
pub mod enums;
pub mod fields;
pub mod moves;
pub mod records;
