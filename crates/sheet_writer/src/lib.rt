// Writes sheets: that of any plan, and from a night that of its plan, which the checker accepts.
#![tactic(auto)]

pub mod planned;
mod put;
pub mod refusal;
mod writer;

pub use writer::{sheet_len, write};
