// The largest night.
pub use fraction::{MAX_HOURS, MAX_TASKS, MAX_UNITS};
