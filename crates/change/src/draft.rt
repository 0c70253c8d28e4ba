// The tasks of a night while changes are made to them.
ghost use Rattle.std.specs.Prelude.{◌≡◌, Decides, IfOk, OnOk, MatchResult};
ghost use Rattle.change.specs.Changed.{Refuses};
ghost use Rattle.change.specs.Row.{Possible, AllCan, after, after_row};
ghost use Rattle.night.specs.Night.{hours_of, tasks_of};
ghost use Rattle.night.specs.Task.{Sound};

use crate::kinds::Change;
use crate::refusal::Refusal;
use night::limits::{MAX_TASKS, MAX_UNITS};
use night::night::Night;
use night::task::Task;
use std::alloc::{AllocError, Global};

// After each change they are tasks of a night.
#[derive(Drop)]
pub(crate) struct Draft {
    hours: usize,
    tasks: Vec<Task>,
    ghost sound: { Sound hours tasks.items },
}

impl Draft {
    // A copy of a night.
    pub(crate) fn of(heap: Global, night: &Night) -> Result<Draft, AllocError>
        ensures { IfOk result (λ d. (d.hours ≡ hours_of night.now) × (d.tasks.items ≡ tasks_of night.now)) }
    {
        let tasks = Vec::from_slice(heap, night.tasks())?;
        Ok(Draft {
            hours: night.hours(),
            tasks,
        })
    }

    // Whether the change can be made.
    fn can(&self, change: Change) -> bool
        ensures { Decides result (Possible self.now.hours self.now.tasks.items change) }
    {
        match change {
            Change::Comes(task) => self.tasks.len() < MAX_TASKS && task.fits(self.hours),
            Change::Goes(j) => j < self.tasks.len(),
            Change::More(j, units) => self
                .tasks
                .get(j)
                .is_some_and(|task| task.units.saturating_add(units) <= MAX_UNITS),
        }
    }

    // Makes a change that can be made.
    fn make(&mut self, change: Change) -> Result<(), AllocError>
        requires { Possible self.old.hours self.old.tasks.items change }
        ensures hours { self.new.hours ≡ self.old.hours }
        ensures tasks { OnOk result (self.new.tasks.items ≡ after self.old.tasks.items change) }
    {
        match change {
            Change::Comes(task) => self.tasks.push(task)?,
            Change::Goes(j) => {
                let _ = self.tasks.remove(j);
            }
            Change::More(j, units) => self.tasks[j].units += units,
        }
        Ok(())
    }

    // Makes the changes of the row, one after another, until one can't be made.
    pub(crate) fn make_all(&mut self, row: &[Change]) -> Result<(), Refusal>
        ensures hours { self.new.hours ≡ self.old.hours }
        ensures tasks { MatchResult result
            (λ _. AllCan self.old.hours self.old.tasks.items row.now × (self.new.tasks.items ≡ after_row self.old.tasks.items row.now))
            (λ e. Refuses self.old.hours self.old.tasks.items row.now e) }
    {
        for (i, change) in row.iter().enumerate() {
            if !self.can(*change) {
                return Err(Refusal::Impossible(i));
            }
            self.make(*change)?;
        }
        Ok(())
    }

    // The night that the tasks are now.
    pub(crate) fn finish(self) -> Night
        ensures { (hours_of result ≡ self.hours) × (tasks_of result ≡ self.tasks.items) }
    {
        let Draft { hours, tasks } = self;
        Night::new(hours, tasks).unwrap()
    }
}
