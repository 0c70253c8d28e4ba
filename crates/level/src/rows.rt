// A group's amounts are written into the lent plan, a part of it lent on for each row.
ghost use Rattle.std.specs.Prelude.{◌≡◌, ℕ, ◌+◌, ◌*◌, ◌<◌, ◌≤◌, length, if◌then◌else◌, slice_index};
ghost use Rattle.level.specs.Parts.{Top, amount, top_tasks};
ghost use Rattle.level.specs.Row.{Written};
ghost use Rattle.flow.specs.Lent.{flow};
ghost use Rattle.sets.specs.Hours.{has};

use crate::search::Search;
use flow::net::Net;
use sets::hours::Hours;

// Writes a row of amounts: the marked cells, and 0 elsewhere.
fn write(row: &mut [u64], cells: &[u64], marks: Hours)
    requires long { length row.old ≡ 96 }
    requires cells { length cells.now ≡ 96 }
    ensures { (s : ℕ) → s < 96 → slice_index row.new s ≡ (if has marks s then slice_index cells.now s else 0) }
{
    row.fill(0);
    'hours: for s in marks.common(Hours::below(96)) {
        row[s] = cells[s];
    }
}

// Writes row i of the cells as row j of the plan.
fn place(plan: &mut [u64], j: usize, work: &[u64], i: usize, marks: Hours)
    requires plan { j * 96 + 96 ≤ length plan.old }
    requires work { i * 96 + 96 ≤ length work.now }
    ensures within { (s : ℕ) → s < 96 → amount plan.new j s ≡ (if has marks s then amount work.now i s else 0) }
    ensures before { (k : ℕ) → k < j * 96 → slice_index plan.new k ≡ slice_index plan.old k }
    ensures after { (k : ℕ) → j * 96 + 96 ≤ k → slice_index plan.new k ≡ slice_index plan.old k }
{
    write(
        &mut plan[j * 96..j * 96 + 96],
        &work[i * 96..i * 96 + 96],
        marks,
    );
}

impl Search<'_> {
    // Writes what the tasks of the part on top ship into their rows of the plan.
    pub fn write_group(&self, net: &Net, work: &[u64], plan: &mut [u64])
        requires top { Top self.now.parts }
        requires work { length self.now.tasks.now * 96 ≤ length work.now }
        requires plan { length self.now.tasks.now * 96 ≤ length plan.old }
        ensures { Written (length self.now.tasks.now) (top_tasks self.now.parts) (flow net.now work.now) plan.old plan.new }
    {
        'tasks: for (i, j) in self.parts.sets[self.parts.top].into_iter().enumerate() {
            place(plan, j, work, i, net.marks[i]);
        }
    }
}
