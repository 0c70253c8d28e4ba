// One line each, with no end of line.
ghost use Rattle.std.specs.Prelude.{◌≡◌, Some};
ghost use Rattle.lines.specs.Lines.{hour_line, task_line, refused_line, uneven_line};

use fraction::Fraction;
use refusals::Numbered;
use std::fmt;

// An hour's load.
#[derive(Clone, Copy, PartialEq, Eq, Debug)]
pub struct HourLine {
    pub hour: usize,
    pub load: Fraction,
}

impl fmt::Display for HourLine {
    ghost output = { λ x. Some (hour_line x.hour x.load.num x.load.den) };

    fn fmt<W: fmt::Write>(&self, f: &mut fmt::Formatter<W>) -> fmt::Result {
        let hour = self.hour;
        let load = self.load;
        write!(f, "hour {hour} load {load}")
    }
}

// How much of a task is done in an hour.
#[derive(Clone, Copy, PartialEq, Eq, Debug)]
pub struct TaskLine {
    pub task: usize,
    pub hour: usize,
    pub amount: Fraction,
}

impl fmt::Display for TaskLine {
    ghost output = { λ x. Some (task_line x.task x.hour x.amount.num x.amount.den) };

    fn fmt<W: fmt::Write>(&self, f: &mut fmt::Formatter<W>) -> fmt::Result {
        let task = self.task;
        let hour = self.hour;
        let amount = self.amount;
        write!(f, "task {task} hour {hour} amount {amount}")
    }
}

// A refusal: its number, and the place where it stands.
#[derive(Clone, Copy, PartialEq, Eq, Debug)]
pub struct RefusedLine {
    pub number: u64,
    pub place: u64,
}

impl RefusedLine {
    // The line of a refusal. No From: an impl for every R would overlap std's From<T> for T.
    pub fn of<R: Numbered>(refusal: R) -> RefusedLine
        ensures { (result.number ≡ (R.code refusal).0) × (result.place ≡ (R.code refusal).1) }
    {
        RefusedLine {
            number: refusal.number() as u64,
            place: refusal.place() as u64,
        }
    }
}

impl fmt::Display for RefusedLine {
    ghost output = { λ x. Some (refused_line x.number x.place) };

    fn fmt<W: fmt::Write>(&self, f: &mut fmt::Formatter<W>) -> fmt::Result {
        let number = self.number;
        let place = self.place;
        write!(f, "refused {number} at {place}")
    }
}

// The refusal of a sheet that is not even: the task, the hour in which it is done, and one with less load in which it may be done.
#[derive(Clone, Copy, PartialEq, Eq, Debug)]
pub struct UnevenLine {
    pub task: u64,
    pub done: u64,
    pub less: u64,
}

impl fmt::Display for UnevenLine {
    ghost output = { λ x. Some (uneven_line x.task x.done x.less) };

    fn fmt<W: fmt::Write>(&self, f: &mut fmt::Formatter<W>) -> fmt::Result {
        let task = self.task;
        let done = self.done;
        let less = self.less;
        write!(f, "refused 9 at {task} hours {done} {less}")
    }
}
