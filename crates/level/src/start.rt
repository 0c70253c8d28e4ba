// All tasks as one part, before the first flow.
ghost use Rattle.std.specs.Prelude.{◌≡◌, ℕ, ◌+◌, List, length, if◌then◌else◌, nat_lt};
ghost use Rattle.fraction.specs.Sum.{any};
ghost use Rattle.level.specs.Crew.{Crews};
ghost use Rattle.level.specs.Parts.{Ready, Held};
ghost use Rattle.sets.specs.Hours.{has};
ghost use Rattle.night.specs.Task.{may};

use crate::parts::Parts;
use crate::task_set::TaskSet;
use fraction::Fraction;
use night::task::Task;
use sets::hours::Hours;

// The hours that some task may use.
fn used(tasks: &[Task]) -> Hours
    ensures { (s : ℕ) → has result s ≡ any (length tasks.now) (λ j. may tasks.now j s) }
{
    let mut all = Hours::none();
    'tasks: for task in tasks {
        all = all.union(task.hours);
    }
    all
}

// All tasks wait as one part, with the hours that they may use; where there is no task, nothing waits.
pub fn start(tasks: &[Task]) -> Parts
    requires { Ready tasks.now }
    ensures state { (plan : List ℕ) → Held tasks.now result plan }
    ensures crews { Crews (length tasks.now) result }
    ensures found { result.found ≡ 0 }
    ensures top { result.top + (if nat_lt 0 (length tasks.now) then 1 else 0) ≡ 96 }
{
    let mut hours = [Hours::none(); 96];
    hours[95] = used(tasks);
    let mut sets = [TaskSet::none(); 96];
    sets[95] = TaskSet::below(tasks.len());
    Parts {
        found: 0,
        top: if tasks.len() == 0 { 96 } else { 95 },
        hours,
        sets,
        levels: [Fraction::zero(); 96],
        of: [95; 200],
    }
}
