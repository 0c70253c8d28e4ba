// The largest night; specs/Limits.antt has the same numbers.
pub const MAX_HOURS: usize = 96;

pub const MAX_TASKS: usize = 200;
// of one task
pub const MAX_UNITS: u32 = 1_000_000;
