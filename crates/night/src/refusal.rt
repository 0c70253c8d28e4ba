// Why bytes are no night.
ghost use Rattle.std.specs.Prelude.{◌≡◌};
ghost use Rattle.night.specs.declared.refusal.Refusal.TheVariants.{NoMemory};
ghost use Rattle.night.specs.Refusal.{code as refusal_code};

use refusals::Numbered;
use std::alloc::AllocError;

#[derive(Clone, Copy, PartialEq, Eq, Debug)]
pub enum Refusal {
    // bytes end too early, at their length, or go on, at the first too many
    Length(usize),
    // no hours, or more than a night has
    HoursOutOfRange,
    // more tasks than a night has
    TooManyTasks,
    // more units than a task has, at the first byte of its units
    TooManyUnits(usize),
    // a task with no hour, or with a bit from the hours on, at the first byte of its row
    BadRow(usize),
    // no memory for the tasks
    NoMemory,
}

impl Numbered for Refusal {
    ghost code = { refusal_code };

    fn number(self) -> usize {
        match self {
            Refusal::Length(_) => 1,
            Refusal::HoursOutOfRange | Refusal::TooManyTasks => 2,
            Refusal::TooManyUnits(_) => 3,
            Refusal::BadRow(_) => 4,
            Refusal::NoMemory => 11,
        }
    }

    fn place(self) -> usize {
        match self {
            Refusal::Length(p) | Refusal::TooManyUnits(p) | Refusal::BadRow(p) => p,
            Refusal::TooManyTasks => 1,
            Refusal::HoursOutOfRange | Refusal::NoMemory => 0,
        }
    }
}

impl From<AllocError> for Refusal {
    ghost from_gives = { λ _ r. r ≡ NoMemory };

    fn from(_: AllocError) -> Refusal {
        Refusal::NoMemory
    }
}
