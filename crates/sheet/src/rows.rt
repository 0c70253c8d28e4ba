// Do the amounts of each task of a sheet add up to its units?
ghost use Rattle.std.specs.Prelude.{◌≡◌, ℕ, ◌<◌, ◌≤◌, length, sum_by, MatchResult};
ghost use Rattle.std.specs.Int.{from_le_bytes, w64};
ghost use Rattle.even.specs.DayOf.{day};
ghost use Rattle.sheet.specs.Verdict.{Adds, Loaded, Refused, code};
ghost use Rattle.sheet.specs.Layout.{Overs};

use crate::layout::Laid;
use crate::refusal::Refusal;

// The sum of amounts.
fn total(amounts: &[[u8; 8]]) -> u128
    requires { length amounts.now ≤ 96 }
    ensures { result ≡ sum_by (from_le_bytes w64) amounts.now }
{
    amounts
        .iter()
        .map(|amount| u128::from(u64::from_le_bytes(*amount)))
        .sum()
}

impl<'a> Laid<'a> {
    // Refuses the first task whose amounts don't add up to its units, or whose group is missing or has no hour.
    pub(crate) fn rows(&self, overs: &[u8; 200]) -> Result<(), Refusal>
        requires overs { Overs (day self.now.hours self.now.tasks.now) self.now.bytes.now overs.now }
        requires loads { (s : ℕ) → s < self.now.hours → Loaded (day self.now.hours self.now.tasks.now) self.now.bytes.now s }
        ensures { MatchResult result (λ _. (j : ℕ) → j < length self.now.tasks.now → Adds (day self.now.hours self.now.tasks.now) self.now.bytes.now j) (λ e. Refused (day self.now.hours self.now.tasks.now) self.now.bytes.now (code e)) }
    {
        for (j, task) in self.tasks.iter().enumerate() {
            let over = overs[j];
            if over == 0 || total(self.amounts(j)) != task.units as u128 * over as u128 {
                return Err(Refusal::Task(j));
            }
        }
        Ok(())
    }
}
