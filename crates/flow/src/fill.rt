// The call: a largest flow of tasks into hours.
ghost use Rattle.std.specs.Prelude.{◌≡◌, ℕ, ◌+◌, ◌*◌, ◌^◌, ◌<◌, ◌≤◌, true, false, length, IfNone, MatchOption, OnSome, slice_index};
ghost use Rattle.fraction.specs.Sum.{sum};
ghost use Rattle.sets.specs.Hours.{has};
ghost use Rattle.flow.specs.Lent.{permits, flow, room, within, fitting, Empty};
ghost use Rattle.flow.specs.Outcome.{Outcome};

use crate::filling::Filling;
use crate::net::{Filled, Net};
use sets::hours::Hours;

// The room of each hour before anything is shipped: its capacity, if it is in the set.
fn ready(hours: Hours, capacity: &[u64; 96], net: &mut Net)
    requires low { (s : ℕ) → has hours s ≡ true → s < 96 }
    ensures rooms { (s : ℕ) → room net.new s ≡ within hours capacity.now s }
    ensures fits { (s : ℕ) → room net.new s < 2 ^ 64 }
{
    net.room = [0; 96];
    for s in hours {
        net.room[s] = capacity[s];
    }
}

// Nothing is shipped yet.
fn clear(supply: &[u64], net: &mut Net)
    requires tasks { length supply.now ≤ 200 }
    ensures empty { Empty (length supply.now) supply.now net.new }
    ensures rooms { net.new.room ≡ net.old.room }
{
    let tasks = supply.len();
    net.left[..tasks].copy_from_slice(supply);
    net.marks[..tasks].fill(Hours::none());
}

// Ships as much as fits of the supplies of tasks, each into the hours in which it may be done: hours outside of the set
// bear nothing, the others what the array says. The flow is in `work`, in rows of 96 cells, as far as `net.marks` has the
// hour. It looks for ways to room at most once for each unit, and once more. Refused, with nothing changed, are more than 200 tasks,
// rows that are not one for each task, and too few cells. What it takes are parameters and no struct, since a caller lends each by itself.
pub fn fill(
    may: &[Hours],
    supply: &[u64],
    hours: Hours,
    capacity: [u64; 96],
    work: &mut [u64],
    net: &mut Net,
) -> Option<Filled>
    ensures filled { MatchOption result
        (fitting (length may.now) (length supply.now) (length work.old) ≡ false)
        (λ x. (fitting (length may.now) (length supply.now) (length work.old) ≡ true)
        × Outcome (length supply.now) (permits may.now) (λ j. slice_index supply.now j)
        (within hours capacity) (flow net.new work.new) x) }
    ensures refused { IfNone result ((work.new ≡ work.old) × (net.new ≡ net.old)) }
    ensures looks { OnSome result (net.new.looks ≤ 1 + sum (length supply.now) (λ j. slice_index supply.now j)) }
    ensures rest { (k : ℕ) → length supply.now * 96 ≤ k → slice_index work.new k ≡ slice_index work.old k }
{
    let m = supply.len();
    if may.len() != m || m > 200 || work.len() < m * 96 {
        return None;
    }
    let hours = hours.common(Hours::below(96));
    ready(hours, &capacity, net);
    clear(supply, net);
    let mut filling = Filling {
        may,
        hours,
        net: &mut *net,
        work: &mut *work,
    };
    filling.pack();
    let end = filling.settle();
    net.looks = end.looks;
    Some(end.filled)
}
