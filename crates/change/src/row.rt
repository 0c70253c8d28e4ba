// A row of changes, made one after another, or not at all.
ghost use Rattle.std.specs.Prelude.{◌≡◌, IfOk, MatchResult};
ghost use Rattle.change.specs.Changed.{Changed, Refuses};
ghost use Rattle.night.specs.Night.{hours_of, tasks_of};

use crate::draft::Draft;
use crate::kinds::Change;
use crate::refusal::Refusal;
use night::night::Night;
use std::alloc::Global;

// The night after the row, or the first change of the row that can't be made; the night that is lent stays as it is.
pub fn apply(heap: Global, night: &Night, row: &[Change]) -> Result<Night, Refusal>
    ensures { MatchResult result (λ m. Changed night.now row.now m) (λ e. Refuses (hours_of night.now) (tasks_of night.now) row.now e) }
{
    let mut draft = Draft::of(heap, night)?;
    draft.make_all(row)?;
    Ok(draft.finish())
}
