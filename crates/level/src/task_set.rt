// Sets of tasks, each operation told by the members of its outcome.
ghost use Rattle.std.specs.Prelude.{◌≡◌, ℕ, false, not, ◌&&◌, ◌||◌, ◌==◌, nat_lt};
ghost use Rattle.level.specs.TaskSet.{holds};

use sets::hours::Hours;
use sets::iter::{IndexSet, Members};

// A set of numbers below 256, in two halves. Not one generic type with `Hours`: over words of any number each operation of both would be
// a loop, where here it is a call or two.
#[derive(Clone, Copy)]
pub struct TaskSet {
    low: Hours,
    high: Hours,
}

impl TaskSet {
    // The empty set.
    pub fn none() -> TaskSet
        ensures { (k : ℕ) → holds result k ≡ false }
    {
        TaskSet {
            low: Hours::none(),
            high: Hours::none(),
        }
    }

    // All tasks below n, up to 256 of them.
    pub fn below(n: usize) -> TaskSet
        ensures { (k : ℕ) → holds result k ≡ (nat_lt k n && nat_lt k 256) }
    {
        TaskSet {
            low: Hours::below(n),
            high: Hours::below(n.saturating_sub(128)),
        }
    }

    // The set with task j; the set as it is, if j is 256 or more.
    pub fn insert(self, j: usize) -> TaskSet
        ensures { (k : ℕ) → holds result k ≡ (holds self k || (k == j && nat_lt k 256)) }
    {
        if j < 128 {
            TaskSet {
                low: self.low.insert(j),
                high: self.high,
            }
        } else {
            TaskSet {
                low: self.low,
                high: self.high.insert(j - 128),
            }
        }
    }

    // The tasks that the other set does not have.
    pub fn minus(self, other: TaskSet) -> TaskSet
        ensures { (k : ℕ) → holds result k ≡ (holds self k && not (holds other k)) }
    {
        TaskSet {
            low: self.low.minus(other.low),
            high: self.high.minus(other.high),
        }
    }
}

impl IndexSet for TaskSet {
    ghost end = { 256 };

    ghost has = { holds };

    fn take_lowest(&mut self) -> Option<usize> {
        if let Some(j) = self.low.take_lowest() {
            return Some(j);
        }
        let j = self.high.take_lowest()?;
        Some(128 + j)
    }
}

// Written for each set, since std's trait can't be given to every set of numbers at once.
impl IntoIterator for TaskSet {
    type Item = usize;

    type IntoIter = Members<TaskSet>;

    ghost into_iter_gives = { λ set m. m.rest ≡ set };

    fn into_iter(self) -> Members<TaskSet> {
        Members::of(self)
    }
}
