// Ships what can still be shipped, path by path, until all is shipped or nothing can be.
ghost use Rattle.std.specs.Prelude.{◌≡◌, ℕ, ◌+◌, ◌<◌, ◌≤◌, length, MatchBool, slice_index_or};
ghost use Rattle.sets.specs.Hours.{blank};
ghost use Rattle.flow.specs.Filling.{waiting, LayeredIn, Keeps};
ghost use Rattle.flow.specs.Lent.{left};
ghost use Rattle.flow.specs.Outcome.{Settled};
ghost use Rattle.flow.specs.Sight.{Waiting};

use crate::filling::Filling;
use crate::layer::Sight;
use crate::net::Filled;
use sets::hours::Hours;

// How it ends, and how often it looked for ways to room.
#[derive(Clone, Copy)]
pub struct End {
    pub filled: Filled,
    pub looks: u64,
}

impl Filling<'_> {
    // Whether a task has something left.
    fn waits(&self) -> bool
        ensures { MatchBool result ((j : ℕ) × (j < length self.now.may.now) × (0 < left self.now.net.now j))
            ((j : ℕ) → j < length self.now.may.now → left self.now.net.now j ≡ 0) }
    {
        self.net.left[..self.may.len()].iter().any(|n| *n > 0)
    }

    // Ships some of task j, which waits at layer d.
    pub fn step(&mut self, layers: &[Hours; 97], d: usize, j: usize)
        requires depth { d ≤ 96 }
        requires ways { LayeredIn self.old layers.now d }
        requires waits { Waiting (length self.old.may.now) self.old.may.now self.old.net.now (slice_index_or layers.now d blank) j }
        ensures less { waiting self.new < waiting self.old }
        ensures keeps { Keeps self.old self.new }
    {
        let Some(u) = self.may[j].common(layers[d]).lowest() else {
            return unreachable();
        };
        let want = self.net.left[j];
        let got = self.free(layers, d, u, want);
        self.ship(j, u, got);
    }

    // Ships what can still be shipped, in rounds. Each looks for ways to room once and ships at least one unit, so there are no
    // more looks than units left, and one that finds none.
    fn rounds(&mut self) -> End
        ensures settled { Settled (length self.old.may.now) self.old.may.now self.new.net.now self.new.work.now result.filled }
        ensures keeps { Keeps self.old self.new }
        ensures looks { result.looks ≤ 1 + waiting self.old }
    {
        let none = Hours::none();
        let mut layers = [none; 97];
        let mut looks: u64 = 0;
        loop {
            if !self.waits() {
                let filled = Filled::Whole;
                return End { filled, looks };
            }
            looks = looks.saturating_add(1);
            let Sight { depth, task } = self.look(&mut layers);
            let Some(j) = task else {
                let filled = Filled::Cut(layers[depth]);
                return End { filled, looks };
            };
            self.step(&layers, depth, j);
            self.serve_all(&mut layers, depth);
        }
    }

    // Ships what can still be shipped, if anything is left.
    pub fn settle(&mut self) -> End
        ensures settled { Settled (length self.old.may.now) self.old.may.now self.new.net.now self.new.work.now result.filled }
        ensures keeps { Keeps self.old self.new }
        ensures looks { result.looks ≤ 1 + waiting self.old }
    {
        if !self.waits() {
            let filled = Filled::Whole;
            return End { filled, looks: 0 };
        }
        self.rounds()
    }
}
