// The part on top becomes the next group.
ghost use Rattle.std.specs.Prelude.{◌≡◌, ℕ, ◌≤◌, length};
ghost use Rattle.level.specs.Crew.{CrewOf, Crews};
ghost use Rattle.level.specs.Parts.{Top};
ghost use Rattle.level.specs.Change.{Moved, Taken};

use crate::parts::Parts;
use crate::task_set::TaskSet;
use fraction::Fraction;

// Of the first n tasks, those of the set, that of the part `top`, get the label `to`.
fn rename(of: &mut [usize], set: TaskSet, n: usize, top: usize, to: usize)
    requires few { n ≤ length of.old }
    requires crew { CrewOf n of.old top set }
    ensures { Moved top to n of.old of.new }
{
    'tasks: for j in set {
        of[j] = to;
    }
}

// The part on top of the n tasks becomes the next group, with its level.
pub fn take(n: usize, parts: &mut Parts, level: Fraction)
    requires few { n ≤ 200 }
    requires top { Top parts.old }
    requires crews { Crews n parts.old }
    requires found { parts.old.found ≤ parts.old.top }
    ensures taken { Taken n level parts.old parts.new }
{
    let top = parts.top;
    let found = parts.found;
    let set = parts.sets[top];
    rename(&mut parts.of, set, n, top, found);
    parts.hours[found] = parts.hours[top];
    parts.levels[found] = level;
    parts.found = found + 1;
    parts.top = top + 1;
}
