// What a night is made of.
ghost use Rattle.std.specs.Prelude.{◌≡◌, MatchOption};
ghost use Rattle.night.specs.Night.{hours_of, tasks_of};
ghost use Rattle.night.specs.Task.{Sound};

use super::Night;
use crate::limits::{MAX_HOURS, MAX_TASKS};
use crate::task::Task;

impl Night {
    // A night of so many hours with these tasks, unless they are none of a night.
    pub fn new(hours: usize, tasks: Vec<Task>) -> Option<Night>
        ensures { MatchOption result (Sound hours tasks.items → ⊥) (λ n. (hours_of n ≡ hours) × (tasks_of n ≡ tasks.items)) }
    {
        if hours == 0 || hours > MAX_HOURS || tasks.len() > MAX_TASKS {
            return None;
        }
        if !tasks.iter().all(|task| task.fits(hours)) {
            return None;
        }
        Some(Night { hours, tasks })
    }

    // How many hours there are.
    pub fn hours(&self) -> usize
        ensures { result ≡ hours_of self.now }
    {
        self.hours
    }

    // The tasks, in order.
    pub fn tasks(&self) -> &[Task]
        ensures { result.now ≡ tasks_of self.now }
    {
        self.tasks.as_slice()
    }

    // The tasks, taken out of the night.
    pub fn into_tasks(self) -> Vec<Task>
        ensures { result.items ≡ tasks_of self }
    {
        let Night { hours: _, tasks } = self;
        tasks
    }
}
