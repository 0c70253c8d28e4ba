// Why a plan is refused.
ghost use Rattle.std.specs.Prelude.{◌≡◌};
ghost use Rattle.level.specs.Short.{code as short_code};

use refusals::Numbered;

// A lent slice is too short.
#[derive(Clone, Copy, PartialEq, Eq, Debug)]
pub enum Short {
    Plan,
    Work,
}

impl Numbered for Short {
    ghost code = { short_code };

    fn number(self) -> usize {
        5
    }

    fn place(self) -> usize {
        match self {
            Short::Plan => 0,
            Short::Work => 1,
        }
    }
}
