// What is drawn, and what is read out of it.
ghost use Rattle.std.specs.Prelude.{◌≡◌, ◌+◌, ◌*◌, ◌<◌, IfSome, slice_index};
ghost use Rattle.fraction.specs.Fraction.{Reduced};
ghost use Rattle.picture.specs.Drawn.{num_at, den_at, group_at};

use fraction::{Fraction, MAX_HOURS};
use night::night::Night;
use sets::hours::Hours;

// A night and its plan. What a slice lacks is drawn as nothing: no name, no load, no group, no amount.
#[derive(Clone, Copy)]
pub struct Drawn<'a> {
    pub night: &'a Night,
    // by task: its name
    pub names: &'a [String],
    // by hour: its load
    pub loads: &'a [Fraction],
    // by group, the highest load first: its hours
    pub groups: &'a [Hours],
    // by task: the denominator of its amounts
    pub parts: &'a [u64],
    // by task, in rows of 96, as planning lends them: what is done of it in each hour
    pub amounts: &'a [u64],
}

impl Drawn<'_> {
    // The name of task j. (`text` has the same lines: neither crate stands on the other.) A match, since `map_or` gets no proof on a field of
    // another lifetime.
    pub(crate) fn name(&self, j: usize) -> &str {
        match self.names.get(j) {
            Some(name) => name.as_str(),
            None => "",
        }
    }

    // The load of hour s.
    pub(crate) fn load(self, s: usize) -> Fraction
        ensures { (result.num ≡ num_at self.entry.loads.now s) × (result.den ≡ den_at self.entry.loads.now s) }
    {
        self.loads.get(s).copied().unwrap_or(Fraction::zero())
    }

    // The group of hour s, if it has one.
    pub(crate) fn group(self, s: usize) -> Option<usize>
        ensures { result ≡ group_at 0 self.entry.groups.now s }
    {
        self.groups.iter().position(|hours| hours.contains(s))
    }

    // What of task j is done in hour s, unless that is nothing.
    pub(crate) fn amount(self, j: usize, s: usize) -> Option<Fraction>
        requires { (j < 200) × (s < 96) }
        ensures { IfSome result (λ f. Reduced (slice_index self.entry.amounts.now (j * 96 + s)) (slice_index self.entry.parts.now j) f.num f.den) }
    {
        let den = *self.parts.get(j)?;
        let num = *self.amounts.get(j * MAX_HOURS + s)?;
        if num == 0 {
            return None;
        }
        Fraction::reduced(num, den)
    }
}
