// The whole evening: the night is changed, planned, and its sheet is written.
ghost use Rattle.change.specs.Changed.{Refuses};
ghost use Rattle.change.specs.Evening.{Prepared};
ghost use Rattle.night.specs.Night.{hours_of, tasks_of};
ghost use Rattle.std.specs.Result.{MatchResult};

use crate::kinds::Change;
use crate::refusal::Refusal;
use crate::row::apply;
use level::length_needed;
use night::night::Night;
use sheet_writer::planned::{Planned, plan_sheet, sheet_room};
use std::alloc::Global;

// The night as it is after the changes, its plan, and the sheet of its plan.
#[derive(Drop)]
pub struct Evening {
    pub night: Night,
    pub planned: Planned,
    // by task and hour, in rows of 96: the amounts, over the denominator of the level of the task's group
    pub amounts: Vec<u64>,
    // the sheet, in its first bytes, as many as `planned` says; not cut to them, since the promise speaks of all bytes that were lent
    pub sheet: Vec<u8>,
}

// Makes the changes of the row, plans the night as it is then, and writes the sheet of the plan; or says which change can't be made first.
pub fn prepare(heap: Global, night: &Night, row: &[Change]) -> Result<Evening, Refusal>
    ensures { MatchResult result (λ v. Prepared night.now row.now v) (λ e. Refuses (hours_of night.now) (tasks_of night.now) row.now e) }
{
    let changed = apply(heap, night, row)?;
    let need = length_needed(&changed);
    let mut amounts = vec![in heap; 0u64; need]?;
    let mut work = vec![in heap; 0u64; need]?;
    let mut sheet = vec![in heap; 0u8; sheet_room(&changed)]?;
    let planned = plan_sheet(&changed, &mut amounts, &mut work, &mut sheet).unwrap();
    Ok(Evening {
        night: changed,
        planned,
        amounts,
        sheet,
    })
}
