// The level of the part on top.
ghost use Rattle.std.specs.Prelude.{◌≡◌, ℕ, ◌≤◌, length};
ghost use Rattle.fraction.specs.Sum.{part};
ghost use Rattle.level.specs.Cut.{Levels};
ghost use Rattle.level.specs.Parts.{Top, top_tasks, top_hours};
ghost use Rattle.night.specs.Task.{units};

use crate::search::Search;
use fraction::Fraction;

impl Search<'_> {
    // The units of the tasks of the part on top.
    fn weigh(&self) -> u64
        requires top { Top self.now.parts }
        ensures value { result ≡ part (length self.now.tasks.now) (top_tasks self.now.parts) (units self.now.tasks.now) }
        ensures small { result ≤ 200000000 }
    {
        let mut all = 0;
        'tasks: for j in self.parts.sets[self.parts.top] {
            all += self.tasks[j].units as u64;
        }
        all
    }

    // The level of the part on top: its units for each of its hours, in lowest terms.
    pub fn level(&self) -> Fraction
        requires top { Top self.now.parts }
        ensures value { Levels (length self.now.tasks.now) 96 (units self.now.tasks.now) (top_tasks self.now.parts) (top_hours self.now.parts) result.num result.den }
        ensures small { result.den ≤ 96 }
    {
        let hours = self.parts.hours[self.parts.top];
        Fraction::reduced(self.weigh(), hours.count() as u64).unwrap()
    }
}
