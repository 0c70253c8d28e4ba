// Sheets: their bytes and their checker, which knows nothing of how a plan is made.
#![tactic(auto)]

mod bytes;
mod checker;
mod evenness;
mod layout;
mod limbs;
mod loads;
pub mod refusal;
mod rows;
mod tally;

pub use bytes::row_bytes;
pub use checker::check;
pub use layout::starts;
