// What the programs share: their words and inputs, files that are written whole or not at all, and the ways in which a program ends.
#![tactic(auto)]

mod about;
mod fault;
mod files;
pub mod nights;
pub mod words;

pub use about::{About, Work, program};
pub use fault::{Fault, refuse, report, status, tell, usage};
pub use files::{read_input, write_output};
