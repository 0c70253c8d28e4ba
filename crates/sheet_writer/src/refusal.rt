// Why a sheet isn't written.
ghost use Rattle.std.specs.Prelude.{◌≡◌};
ghost use Rattle.sheet_writer.specs.Planned.{short_code};
ghost use Rattle.sheet_writer.specs.Written.{why};

use refusals::Numbered;

// What a writer of a sheet refuses.
#[derive(Clone, Copy, PartialEq, Eq, Debug)]
pub enum Unwritten {
    // a denominator or a group that takes more than a byte, or more groups than hours
    TooLarge,
    // the plan has no place for each task and hour
    ShortPlan,
    // the sheet is shorter than it has to be
    ShortSheet,
}

impl Numbered for Unwritten {
    ghost code = { why };

    fn number(self) -> usize {
        match self {
            Unwritten::TooLarge => 12,
            Unwritten::ShortPlan | Unwritten::ShortSheet => 5,
        }
    }

    fn place(self) -> usize {
        match self {
            Unwritten::TooLarge | Unwritten::ShortPlan => 0,
            Unwritten::ShortSheet => 2,
        }
    }
}

// A lent slice is too short: one slice more than a plan alone is lent, so no answer of the planner names a sheet.
#[derive(Clone, Copy, PartialEq, Eq, Debug)]
pub enum Short {
    Plan,
    Work,
    Sheet,
}

impl Numbered for Short {
    ghost code = { short_code };

    fn number(self) -> usize {
        5
    }

    fn place(self) -> usize {
        match self {
            Short::Plan => 0,
            Short::Work => 1,
            Short::Sheet => 2,
        }
    }
}
