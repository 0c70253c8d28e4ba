// The part on top is split by a cut.
ghost use Rattle.std.specs.Prelude.{◌≡◌, ℕ, ◌-◌, ◌<◌, ◌≤◌, length};
ghost use Rattle.fraction.specs.Sum.{without};
ghost use Rattle.level.specs.Change.{Freed, Split};
ghost use Rattle.level.specs.Crew.{CrewOf, Crews};
ghost use Rattle.level.specs.Cut.{open_to};
ghost use Rattle.level.specs.Parts.{Ready, Top};
ghost use Rattle.level.specs.TaskSet.{holds};
ghost use Rattle.sets.specs.Hours.{has};
ghost use Rattle.night.specs.Task.{may};

use crate::parts::Parts;
use crate::task_set::TaskSet;
use night::task::Task;
use sets::hours::Hours;

// The tasks of the set, that of the part `top`, that may use no hour of u, which get the label below.
fn free(tasks: &[Task], of: &mut [usize], set: TaskSet, top: usize, u: Hours) -> TaskSet
    requires ready { Ready tasks.now }
    requires labels { length of.old ≡ 200 }
    requires some { 0 < top }
    requires crew { CrewOf (length tasks.now) of.old top set }
    ensures freed { Freed tasks.now top (has u) (length tasks.now) of.old of.new }
    ensures dense { (j : ℕ) → holds result j ≡ without (holds set) (open_to 96 (may tasks.now) (has u)) j }
{
    let mut dense = TaskSet::none();
    'tasks: for j in set {
        if tasks[j].hours.meets(u) {
            continue;
        }
        of[j] = top - 1;
        dense = dense.insert(j);
    }
    dense
}

// The tasks that may use no hour of u, and the hours outside of u, become the new top; the rest of the part waits below.
pub fn split(tasks: &[Task], parts: &mut Parts, u: Hours)
    requires ready { Ready tasks.now }
    requires top { Top parts.old }
    requires crews { Crews (length tasks.now) parts.old }
    requires below { 0 < parts.old.top }
    ensures split { Split tasks.now (has u) parts.old parts.new }
{
    let top = parts.top;
    let set = parts.sets[top];
    let dense = free(tasks, &mut parts.of, set, top, u);
    parts.sets[top - 1] = dense;
    parts.sets[top] = set.minus(dense);
    let all = parts.hours[top];
    parts.hours[top - 1] = all.minus(u);
    parts.hours[top] = all.common(u);
    parts.top = top - 1;
}
