// Why a row of changes is refused.
ghost use Rattle.std.specs.Prelude.{◌≡◌};
ghost use Rattle.change.specs.Changed.{code as refusal_code};
ghost use Rattle.change.specs.declared.refusal.Refusal.TheVariants.{NoMemory};

use refusals::Numbered;
use std::alloc::{AllocError, AllocFailed};

#[derive(Clone, Copy, PartialEq, Eq, Debug)]
pub enum Refusal {
    // the change at this index of the row can't be made
    Impossible(usize),
    // no memory for the tasks
    NoMemory,
}

impl Numbered for Refusal {
    ghost code = { refusal_code };

    fn number(self) -> usize {
        match self {
            Refusal::Impossible(_) => 6,
            Refusal::NoMemory => 11,
        }
    }

    fn place(self) -> usize {
        match self {
            Refusal::Impossible(i) => i,
            Refusal::NoMemory => 0,
        }
    }
}

impl From<AllocError> for Refusal {
    ghost from_gives = { λ _ r. r ≡ NoMemory };

    fn from(_: AllocError) -> Refusal {
        Refusal::NoMemory
    }
}

impl<T: Drop> From<AllocFailed<T>> for Refusal {
    ghost from_gives = { λ _ r. r ≡ NoMemory };

    fn from(_: AllocFailed<T>) -> Refusal {
        Refusal::NoMemory
    }
}
