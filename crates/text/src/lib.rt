// Text on slices of bytes: what is read from a line, word by word, and what is written into a caller's slice.
#![tactic(auto)]

pub mod buffer;
pub mod digits;
pub mod numbers;
pub mod pairs;
pub mod words;
pub mod writer;
