// Nights: tasks, and how a night is read and written.
#![tactic(auto)]

pub mod bytes;
pub mod limits;
pub mod night;
pub mod refusal;
pub mod task;
pub mod theorems;

pub use night::reader::read;
pub use night::writer::write;
