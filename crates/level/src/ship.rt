// A flow of the part on top at its level.
ghost use Rattle.std.specs.Prelude.{◌≡◌, ℕ, ◌*◌, ◌≤◌, length, take, replicate, slice_index};
ghost use Rattle.level.specs.Cut.{Levels};
ghost use Rattle.level.specs.Parts.{Top, top_tasks, top_hours};
ghost use Rattle.level.specs.Ship.{Shipped};
ghost use Rattle.flow.specs.Lent.{permits, within, flow};
ghost use Rattle.flow.specs.Outcome.{Outcome};
ghost use Rattle.night.specs.Task.{units};

use crate::crew::Crew;
use crate::search::Search;
use flow::fill::fill;
use flow::net::{Filled, Net};
use fraction::Fraction;
use sets::hours::Hours;

// Ships as much as fits of the first k tasks gathered into the hours, at most p in each. The arrays apart, since the net is lent beside them.
fn pour(
    may: &[Hours],
    supply: &[u64],
    k: usize,
    hours: Hours,
    p: u64,
    net: &mut Net,
    work: &mut [u64],
) -> Filled
    requires few { k ≤ 200 }
    requires rows { length may.now ≡ 200 }
    requires supplies { length supply.now ≡ 200 }
    requires room { k * 96 ≤ length work.old }
    ensures poured { Outcome k (permits (take k may.now)) (λ j. slice_index (take k supply.now) j) (within hours (replicate 96 p)) (flow net.new work.new) result }
    ensures behind { (i : ℕ) → k * 96 ≤ i → slice_index work.new i ≡ slice_index work.old i }
{
    fill(&may[0..k], &supply[0..k], hours, [p; 96], work, net).unwrap()
}

impl Search<'_> {
    // Ships as much of the part on top as fits under its level.
    pub fn ship(&self, level: Fraction, crew: &mut Crew, work: &mut [u64]) -> Filled
        requires top { Top self.now.parts }
        requires level { Levels (length self.now.tasks.now) 96 (units self.now.tasks.now) (top_tasks self.now.parts) (top_hours self.now.parts) level.num level.den }
        requires small { level.den ≤ 96 }
        requires room { length self.now.tasks.now * 96 ≤ length work.old }
        ensures shipped { Shipped self.now.tasks.now (top_tasks self.now.parts) (top_hours self.now.parts) level crew.new.net work.new result }
        ensures behind { (k : ℕ) → length self.now.tasks.now * 96 ≤ k → slice_index work.new k ≡ slice_index work.old k }
    {
        let k = self.gather(level.den(), crew);
        let hours = self.parts.hours[self.parts.top];
        pour(
            &crew.may,
            &crew.supply,
            k,
            hours,
            level.num(),
            &mut crew.net,
            work,
        )
    }
}
