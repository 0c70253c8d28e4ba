// Fractions of 64-bit numbers by value, exact: lowest terms, order, text, and the range of numbers that plans need.
#![tactic(auto)]

mod exact;
mod limits;
mod order;
mod range;
mod reduce;
mod shown;
pub mod theorems;

pub use exact::{DEN_END, Fraction, NUM_END};
pub use limits::{MAX_HOURS, MAX_TASKS, MAX_UNITS};
pub use range::largest;
