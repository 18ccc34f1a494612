// The text of the program `fade`: its line is read byte by byte, and its lines are written, into slices of the caller's.
#![tactic(auto)]

pub mod reader;
pub mod writer;
