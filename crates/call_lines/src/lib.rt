// The calls in the lines of `replay`: what a line asks for, and what a lamp answers.
#![tactic(auto)]

mod invocations;
pub mod leaves;
pub mod lines;
pub mod setters;
