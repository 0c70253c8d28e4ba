// Where a sheet's bytes stand.
ghost use Rattle.std.specs.Prelude.{◌≡◌, ℕ, ◌+◌, ◌^◌, ◌<◌, ◌≤◌, length, MatchResult, slice_index, unwrap_or};
ghost use Rattle.fraction.specs.Sum.{sum};
ghost use Rattle.night.specs.Task.{Sound};
ghost use Rattle.even.specs.DayOf.{day};
ghost use Rattle.sheet.specs.Sheet.{over, row};
ghost use Rattle.sheet.specs.Verdict.{Refused, code};
ghost use Rattle.sheet.specs.Layout.{Amounts, Starts, Overs};

use crate::bytes::{first_bit, row_bytes};
use crate::refusal::Refusal;
use night::task::Task;

// The starts of the tasks' bytes, and their end, where those of the first start at `from`.
pub fn starts(hours: usize, tasks: &[Task], from: usize) -> [usize; 201]
    requires sound { Sound hours tasks.now }
    requires near { from ≤ 10000 }
    ensures long { length result ≡ 201 }
    ensures each { (j : ℕ) → j ≤ length tasks.now → slice_index result j ≡ from + sum j (row (day hours tasks.now)) }
{
    let mut out = [from; 201];
    let mut at = from;
    for (j, task) in tasks.iter().enumerate() {
        at += 1 + task.hours.count() * 8;
        out[j + 1] = at;
    }
    out
}

// A sheet that is as long as it has to be, with the night that it is for, and the starts of the tasks' bytes: an array, as checking takes
// nothing from the heap. That the tasks are sound stays a clause where there is no `Laid` yet, and so do bounds of one number.
#[derive(Drop)]
pub(crate) struct Laid<'a> {
    pub(crate) hours: usize,
    pub(crate) tasks: &'a [Task],
    pub(crate) bytes: &'a [u8],
    pub(crate) starts: [usize; 201],
    ghost sound: { Sound hours tasks.now },
    ghost laid: { Starts (day hours tasks.now) bytes.now starts },
    ghost small: { (i : ℕ) → slice_index bytes.now i < 2 ^ 8 },
}

impl<'a> Laid<'a> {
    // Refuses a sheet that is too short or too long.
    pub(crate) fn new(hours: usize, tasks: &'a [Task], bytes: &'a [u8]) -> Result<Laid<'a>, Refusal>
        requires { Sound hours tasks.now }
        ensures { MatchResult result (λ s. (s.hours ≡ hours) × (s.tasks.now ≡ tasks.now) × (s.bytes.now ≡ bytes.now)) (λ e. Refused (day hours tasks.now) bytes.now (code e)) }
    {
        if bytes.len() <= hours * 9 {
            return Err(Refusal::Length(bytes.len()));
        }
        let from = hours * 9 + 1 + bytes[hours * 9] as usize * row_bytes(hours);
        let starts = starts(hours, tasks, from);
        let end = starts[tasks.len()];
        if bytes.len() != end {
            return Err(Refusal::Length(end.min(bytes.len())));
        }
        Ok(Laid {
            hours,
            tasks,
            bytes,
            starts,
        })
    }

    // The denominator of the amounts of task j: that of the load of its group's first hour, if there is one.
    fn over(&self, j: usize) -> Option<u8>
        requires { j < length self.now.tasks.now }
        ensures { unwrap_or result 0 ≡ over (day self.now.hours self.now.tasks.now) self.now.bytes.now j }
    {
        let group = self.bytes[self.starts[j]];
        if group >= self.bytes[self.hours * 9] {
            return None;
        }
        let row = self.hours * 9 + 1 + group as usize * row_bytes(self.hours);
        let s = first_bit(self.bytes, row, self.hours)?;
        Some(self.bytes[s * 9 + 8])
    }

    // The denominators of the amounts of all tasks; 0 where there is none, as the definition `over` has it, so that nothing lies there.
    pub(crate) fn overs(&self) -> [u8; 200]
        ensures { Overs (day self.now.hours self.now.tasks.now) self.now.bytes.now result }
    {
        let mut out = [0; 200];
        // by number: a place that `iter_mut` lends is unknown afterwards
        for j in 0..self.tasks.len() {
            out[j] = self.over(j).unwrap_or(0);
        }
        out
    }

    // The amounts of task j, for the hours in which it may be done.
    pub(crate) fn amounts(&self, j: usize) -> &[[u8; 8]]
        requires { j < length self.now.tasks.now }
        ensures { Amounts (day self.now.hours self.now.tasks.now) self.now.bytes.now j result.now }
    {
        let (amounts, _) = self.bytes[self.starts[j] + 1..self.starts[j + 1]].as_chunks();
        amounts
    }
}
