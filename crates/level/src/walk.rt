// The groups, the highest level first.
ghost use Rattle.std.specs.Prelude.{◌≡◌, ◌*◌, ◌≤◌, length};
ghost use Rattle.level.specs.Walk.{Within, Walking};

use crate::crew::Crew;
use crate::parts::Parts;
use crate::search::Search;
use night::task::Task;

// The parts after the last flow, all of them groups, and how many flows there were: in all, and at most for one group.
#[derive(Drop)]
pub struct Walked {
    pub parts: Parts,
    pub flows: usize,
    pub longest: usize,
}

// Finds the groups of tasks, the highest level first, and writes their amounts into the plan.
pub fn walk(hours: usize, tasks: &[Task], plan: &mut [u64], work: &mut [u64]) -> Walked
    requires short { Within hours tasks.now }
    requires plan { length tasks.now * 96 ≤ length plan.old }
    requires work { length tasks.now * 96 ≤ length work.old }
    ensures walked { Walking hours tasks.now result.parts result.flows result.longest plan.old plan.new work.old work.new }
    ensures shared { result.flows ≤ result.parts.found * result.longest }
    ensures done { result.parts.top ≡ 96 }
{
    let mut search = Search::new(tasks);
    let mut crew = Crew::new();
    let mut flows = 0;
    let mut longest = 0;
    'groups: while search.parts.top < 96 {
        'flows: for i in 0..hours {
            flows += 1;
            if search.step(&mut crew, plan, work) {
                if longest <= i {
                    longest = i + 1;
                }
                continue 'groups;
            }
        }
        unreachable()
    }
    let Search { parts, .. } = search;
    Walked {
        parts,
        flows,
        longest,
    }
}
