// Nights and changes as people write them.
#![tactic(auto)]

pub mod change_line;
pub mod changes;
mod header;
mod hours_line;
mod lines;
pub mod mistake;
mod number;
mod piece;
pub mod reader;
mod reading;
mod report;
mod span;
mod task_line;
pub mod unread;
pub mod writer;
