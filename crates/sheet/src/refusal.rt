// Why a sheet is refused.
ghost use Rattle.std.specs.Prelude.{◌≡◌};
ghost use Rattle.sheet.specs.Verdict.{code as refusal_code};

use refusals::Numbered;

#[derive(Clone, Copy, PartialEq, Eq, Debug)]
pub enum Refusal {
    // bytes end too early, at their length, or go on, at the first too many
    Length(usize),
    // the load of an hour isn't that of the amounts
    Load(usize),
    // a task's amounts don't add up, or its group is missing or has no hour
    Task(usize),
    // a task is done in an hour, though less lies in another in which it may be done
    Uneven(usize, usize, usize),
}

impl Numbered for Refusal {
    ghost code = { λ e. ((refusal_code e).0, (refusal_code e).1) };

    fn number(self) -> usize {
        match self {
            Refusal::Length(_) => 1,
            Refusal::Load(_) => 7,
            Refusal::Task(_) => 8,
            Refusal::Uneven(_, _, _) => 9,
        }
    }

    fn place(self) -> usize {
        match self {
            Refusal::Length(p) | Refusal::Load(p) | Refusal::Task(p) | Refusal::Uneven(p, _, _) =>
                p,
        }
    }
}

impl Refusal {
    // The two hours of a refusal for which there are two: where the task is done, and where less lies; (0, 0) for the
    // others, as `code` has it.
    pub fn hours(self) -> (usize, usize)
        ensures { result ≡ ((refusal_code self).2, (refusal_code self).3) }
    {
        match self {
            Refusal::Uneven(_, s, t) => (s, t),
            _ => (0, 0),
        }
    }
}
