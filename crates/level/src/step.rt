// One flow of the part on top.
ghost use Rattle.std.specs.Prelude.{◌≡◌, ℕ, ◌*◌, ◌<◌, ◌≤◌, length, slice_index};
ghost use Rattle.level.specs.Change.{Stepped};
ghost use Rattle.level.specs.Parts.{Held};

use crate::crew::Crew;
use crate::search::Search;
use crate::split::split;
use crate::take::take;
use flow::net::Filled;

impl Search<'_> {
    // All of the part on top fits under its level: it is taken as the next group, and its amounts are written into the plan. Else it is split.
    // Says whether a group was taken: a bool, and no enum of two names, as `walk` asks one thing.
    pub fn step(&mut self, crew: &mut Crew, plan: &mut [u64], work: &mut [u64]) -> bool
        requires plan { length self.old.tasks.now * 96 ≤ length plan.old }
        requires work { length self.old.tasks.now * 96 ≤ length work.old }
        requires held { Held self.old.tasks.now self.old.parts plan.old }
        requires waits { self.old.parts.top < 96 }
        ensures tasks { self.new.tasks.now ≡ self.old.tasks.now }
        ensures held { Held self.old.tasks.now self.new.parts plan.new }
        ensures stepped { Stepped self.old.parts self.new.parts result }
        ensures plan { (k : ℕ) → length self.old.tasks.now * 96 ≤ k → slice_index plan.new k ≡ slice_index plan.old k }
        ensures work { (k : ℕ) → length self.old.tasks.now * 96 ≤ k → slice_index work.new k ≡ slice_index work.old k }
    {
        let level = self.level();
        match self.ship(level, crew, work) {
            Filled::Whole => {
                self.write_group(&crew.net, work, plan);
                take(self.tasks.len(), &mut self.parts, level);
                true
            }
            Filled::Cut(u) => {
                split(self.tasks, &mut self.parts, u);
                false
            }
        }
    }
}
