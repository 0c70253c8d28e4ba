// A night: its hours, and the tasks that are to be done in them.
ghost use Rattle.std.specs.Prelude.{ℕ, ◌<◌, ◌≤◌, length, slice_index_or};
ghost use Rattle.fraction.specs.Limits.{max_hours, max_tasks};
ghost use Rattle.night.specs.Task.{blank_task, Fits};

use crate::task::Task;

// 1 to 96 hours, and at most 200 tasks, each of which fits.
#[derive(Debug, Drop)]
pub struct Night {
    hours: usize,
    tasks: Vec<Task>,
    ghost some: { 0 < hours },
    ghost short: { hours ≤ max_hours },
    ghost few: { length tasks.items ≤ max_tasks },
    ghost each: { (j : ℕ) → j < length tasks.items → Fits hours (slice_index_or tasks.items j blank_task) },
}

mod layout;
mod parts;
pub mod reader;
pub mod writer;
