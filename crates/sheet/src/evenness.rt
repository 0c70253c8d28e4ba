// Is the plan of a sheet even?
ghost use Rattle.std.specs.Prelude.{◌≡◌, ℕ, ◌+◌, ◌*◌, ◌<◌, ◌≤◌, true, false, length, MatchOption, MatchResult};
ghost use Rattle.sets.specs.Hours.{has};
ghost use Rattle.night.specs.Task.{may};
ghost use Rattle.even.specs.DayOf.{day};
ghost use Rattle.sheet.specs.Sheet.{den, start};
ghost use Rattle.sheet.specs.Verdict.{Adds, Level, Loaded, Refused, code};
ghost use Rattle.sheet.specs.Layout.{Flat, Steep, lower};

use crate::bytes::word_at;
use crate::layout::Laid;
use crate::refusal::Refusal;
use sets::hours::Hours;

impl<'a> Laid<'a> {
    // Does less lie in hour t than in hour s, by the loads of the sheet?
    fn is_lower(&self, t: usize, s: usize) -> bool
        requires first { t < self.now.hours }
        requires second { s < self.now.hours }
        ensures { result ≡ lower self.now.bytes.now t s }
    {
        let here = word_at(self.bytes, t * 9) as u128 * self.bytes[s * 9 + 8] as u128;
        let there = word_at(self.bytes, s * 9) as u128 * self.bytes[t * 9 + 8] as u128;
        here < there
    }

    // Of the hours of a set, of which `first` is one, one in which least lies.
    fn least(&self, set: Hours, first: usize) -> usize
        requires over { (s : ℕ) → s < self.now.hours → 0 < den self.now.bytes.now s }
        requires inside { (s : ℕ) → has set s ≡ true → s < self.now.hours }
        requires member { has set first ≡ true }
        ensures is { has set result ≡ true }
        ensures least { (t : ℕ) → has set t ≡ true → lower self.now.bytes.now t result ≡ false }
    {
        let mut best = first;
        for t in set {
            if self.is_lower(t, best) {
                best = t;
            }
        }
        best
    }

    // The first hour of a set in which less lies than in hour s; hour `known` is one.
    fn first_lower(&self, set: Hours, s: usize, known: usize) -> usize
        requires within { s < self.now.hours }
        requires end { known < self.now.hours }
        requires member { has set known ≡ true }
        requires lower { lower self.now.bytes.now known s ≡ true }
        ensures hour { result ≤ known }
        ensures is { has set result ≡ true }
        ensures lower { lower self.now.bytes.now result s ≡ true }
        ensures before { (t : ℕ) → t < result → has set t ≡ true → lower self.now.bytes.now t s ≡ false }
    {
        // by number, since what it promises speaks of every hour before the answer
        for t in 0..known {
            if set.contains(t) && self.is_lower(t, s) {
                return t;
            }
        }
        known
    }

    // The first hour in which task j is done though less lies in another in which it may be done, and the first such other.
    fn steep(&self, j: usize) -> Option<(usize, usize)>
        requires task { j < length self.now.tasks.now }
        requires over { (s : ℕ) → s < self.now.hours → 0 < den self.now.bytes.now s }
        ensures { let y = day self.now.hours self.now.tasks.now in let p = start y self.now.bytes.now j + 1 in MatchOption result (Flat self.now.bytes.now p (may self.now.tasks.now j) self.now.hours self.now.hours) (λ q. Steep self.now.bytes.now p (may self.now.tasks.now j) self.now.hours q.0 q.1) }
    {
        let set = self.tasks[j].hours;
        let first = set.lowest()?;
        let low = self.least(set, first);
        for (s, amount) in set.into_iter().zip(self.amounts(j)) {
            if u64::from_le_bytes(*amount) != 0 && self.is_lower(low, s) {
                return Some((s, self.first_lower(set, s, low)));
            }
        }
        None
    }

    // Refuses the first task that is done in an hour though less lies in another in which it may be done.
    pub(crate) fn levels(&self) -> Result<(), Refusal>
        requires loads { (s : ℕ) → s < self.now.hours → Loaded (day self.now.hours self.now.tasks.now) self.now.bytes.now s }
        requires adds { (j : ℕ) → j < length self.now.tasks.now → Adds (day self.now.hours self.now.tasks.now) self.now.bytes.now j }
        ensures { MatchResult result (λ _. (j s t : ℕ) → j < length self.now.tasks.now → s < self.now.hours → t < self.now.hours → Level (day self.now.hours self.now.tasks.now) self.now.bytes.now j s t) (λ e. Refused (day self.now.hours self.now.tasks.now) self.now.bytes.now (code e)) }
    {
        // by number: it is all that is asked of the task here
        for j in 0..self.tasks.len() {
            if let Some((s, t)) = self.steep(j) {
                return Err(Refusal::Uneven(j, s, t));
            }
        }
        Ok(())
    }
}
