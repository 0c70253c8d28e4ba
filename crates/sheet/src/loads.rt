// Are the loads of a sheet those of its amounts?
ghost use Rattle.std.specs.Prelude.{◌≡◌, ℕ, ◌+◌, ◌*◌, ◌<◌, ◌≤◌, true, ◌&&◌, length, if◌then◌else◌, MatchResult, ◌==◌, nat_lt, slice_index};
ghost use Rattle.fraction.specs.Sum.{sum};
ghost use Rattle.even.specs.Whole.{whole};
ghost use Rattle.night.specs.Task.{may};
ghost use Rattle.sheet.specs.Limbs.{base};
ghost use Rattle.sheet.specs.Tally.{parts};
ghost use Rattle.even.specs.DayOf.{day};
ghost use Rattle.sheet.specs.Sheet.{den, num};
ghost use Rattle.sheet.specs.Verdict.{Loaded, Refused, code};
ghost use Rattle.sheet.specs.Layout.{lies, Overs};

use crate::bytes::word_at;
use crate::layout::Laid;
use crate::refusal::Refusal;
use crate::tally::Tally;

// Is the sum the load that the sheet says for hour s?
fn is_load(sheet: &[u8], s: usize, sum: Tally) -> bool
    requires within { s * 9 + 9 ≤ length sheet.now }
    requires small { parts sum < base 7 }
    ensures { result ≡ (nat_lt 0 (den sheet.now s) && parts sum * den sheet.now s == num sheet.now s * whole) }
{
    let den = sheet[s * 9 + 8];
    0 < den && sum.is(word_at(sheet, s * 9), den)
}

impl<'a> Laid<'a> {
    // What lies in hour s. The next amount of task j, if it may be done in the hour, stands one byte behind `at[j]`, which then goes on to the one after.
    fn column(&self, overs: &[u8; 200], at: &mut [usize; 201], s: usize) -> Tally
        requires within { (j : ℕ) → j < length self.now.tasks.now → may self.now.tasks.now j s ≡ true → slice_index at.old j + 9 ≤ length self.now.bytes.now }
        ensures sum { parts result ≡ sum (length self.now.tasks.now) (lies self.now.tasks.now self.now.bytes.now overs.now at.old s) }
        ensures small { parts result < base 7 }
        ensures next { (j : ℕ) → j < length self.now.tasks.now → slice_index at.new j ≡ slice_index at.old j + (if may self.now.tasks.now j s then 8 else 0) }
    {
        let mut tally = Tally::new();
        for (j, task) in self.tasks.iter().enumerate() {
            if !task.hours.contains(s) {
                continue;
            }
            // by index: a place that `iter_mut` lends under `zip` is unknown afterwards
            let p = at[j];
            tally.add(word_at(self.bytes, p + 1), overs[j]);
            at[j] = p + 8;
        }
        tally
    }

    // Refuses the first hour whose load isn't that of the amounts.
    pub(crate) fn loads(&self, overs: &[u8; 200]) -> Result<(), Refusal>
        requires { Overs (day self.now.hours self.now.tasks.now) self.now.bytes.now overs.now }
        ensures { MatchResult result (λ _. (s : ℕ) → s < self.now.hours → Loaded (day self.now.hours self.now.tasks.now) self.now.bytes.now s) (λ e. Refused (day self.now.hours self.now.tasks.now) self.now.bytes.now (code e)) }
    {
        let mut at = self.starts;
        for s in 0..self.hours {
            let tally = self.column(overs, &mut at, s);
            if !is_load(self.bytes, s, tally) {
                return Err(Refusal::Load(s));
            }
        }
        Ok(())
    }
}
