// A fill under way: a flow of tasks into hours, in lent memory.
ghost use Rattle.std.specs.Prelude.{◌≡◌, ℕ, ◌*◌, ◌<◌, ◌≤◌, true, length};
ghost use Rattle.sets.specs.Hours.{has};
ghost use Rattle.flow.specs.Lent.{permits, Sound, Shut};

use crate::net::Net;
use sets::hours::Hours;

// At most 200 tasks and the hours that each may use, the hours that bear anything, which lie below 96, and a sound flow in rows
// of 96 cells, one for each task. Bounds of one number (a task, an hour, a layer, an amount) stay clauses of the methods: a type for each would
// only give the bound another name.
#[derive(Drop)]
pub struct Filling<'a> {
    pub may: &'a [Hours],
    pub hours: Hours,
    // read in methods that change nothing through `&*self.net`: elements behind `&` and `&mut` at once are not covered yet
    pub net: &'a mut Net,
    pub work: &'a mut [u64],
    ghost few: { length may.now ≤ 200 },
    ghost cells: { length may.now * 96 ≤ length work.now },
    ghost low: { (s : ℕ) → has hours s ≡ true → s < 96 },
    ghost shut: { Shut (length may.now) hours net.now work.now },
    ghost sound: { Sound (length may.now) (permits may.now) net.now work.now },
}
