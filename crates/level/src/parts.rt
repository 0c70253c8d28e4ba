// The groups found and the parts that wait.
use crate::task_set::TaskSet;
use fraction::Fraction;
use sets::hours::Hours;

// Labels are numbers below 96: those below `found` are groups, those from `top` on are parts that wait, the densest first.
// Arrays of 96 and 200 by value, and no Vec, since planning takes nothing from the heap: found groups grow from below, waiting parts from above.
#[derive(Drop)]
pub struct Parts {
    // how many groups are found
    pub found: usize,
    // the label of the part on top; 96, the end of the arrays, if none waits
    pub top: usize,
    // by label: the hours
    pub hours: [Hours; 96],
    // by label of a part that waits: its tasks
    pub sets: [TaskSet; 96],
    // by label of a group: its level
    pub levels: [Fraction; 96],
    // by task: its label
    pub of: [usize; 200],
}
