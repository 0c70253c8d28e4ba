// A task: what it needs, and when it may be done.
ghost use Rattle.std.specs.Prelude.{◌≡◌, ◌^◌, ◌<◌, true, Decides};
ghost use Rattle.fraction.specs.Sum.{any};
ghost use Rattle.sets.specs.Hours.{has};
ghost use Rattle.night.specs.Task.{Fits};

use crate::limits::MAX_UNITS;
use sets::hours::Hours;

#[derive(Clone, Copy, PartialEq, Eq, Debug)]
pub struct Task {
    // the units that it needs
    pub units: u32,
    // the hours in which it may be done
    pub hours: Hours,
}

impl Task {
    // Whether there is at least one hour in which it may be done, and all are below n.
    pub fn may_within(self, n: usize) -> bool
        ensures { Decides result ((any n (has self.hours) ≡ true) × (self.hours.bits < 2 ^ n)) }
    {
        !self.hours.is_empty() && self.hours.within(n)
    }

    // Whether a night of n hours can have the task.
    pub fn fits(self, n: usize) -> bool
        ensures { Decides result (Fits n self) }
    {
        self.units <= MAX_UNITS && self.may_within(n)
    }
}
