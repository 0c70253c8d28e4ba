// The outcome: groups in the order of finding, and loads.
use fraction::Fraction;
use sets::hours::Hours;

// Arrays of 96 and 200 by value beside a count, and no Vec: planning takes nothing from the heap.
#[derive(Drop)]
pub struct Levels {
    // how many groups there are
    pub count: usize,
    // by group, in the order of finding: its hours
    pub groups: [Hours; 96],
    // by group: its level
    pub levels: [Fraction; 96],
    // by task: its group
    pub of: [usize; 200],
    // by hour: its load
    pub loads: [Fraction; 96],
    // how many flows there were: in all, and at most for one group
    pub flows: usize,
    pub longest: usize,
}
