// What a call is lent beside the cells of its flow, and how it ends.
ghost use Rattle.std.specs.Prelude.{◌≡◌, ℕ, false, replicate};
ghost use Rattle.flow.specs.Lent.{marked, needed};

use sets::hours::Hours;

// Scratch, which each call fills anew as far as it needs: the room in each hour, what is left of each task, the hours in which
// each task has flow, and a count. Arrays, since it is lent and nothing of a flow comes from the heap; they are public to whoever reads a flow.
#[derive(Drop)]
pub struct Net {
    pub room: [u64; 96],
    pub left: [u64; 200],
    pub marks: [Hours; 200],
    // how often the call looked for ways to room
    pub looks: u64,
}

impl Net {
    // No room, nothing left, no flow.
    pub fn new() -> Net
        ensures room { result.room ≡ replicate 96 0 }
        ensures left { result.left ≡ replicate 200 0 }
        ensures marks { (j s : ℕ) → marked result j s ≡ false }
        ensures looks { result.looks ≡ 0 }
    {
        let none = Hours::none();
        Net {
            room: [0; 96],
            left: [0; 200],
            marks: [none; 200],
            looks: 0,
        }
    }
}

// How many cells of lent memory a call for this many tasks needs.
pub fn cells(tasks: u8) -> usize
    ensures { result ≡ needed tasks }
{
    tasks as usize * 96
}

// How a call ends: every task is shipped whole, or some are not, and these hours can still reach room. It is no Option of a
// set: the call answers None where it refuses, and a None within a Some would not say that all is shipped.
#[derive(Clone, Copy, PartialEq, Eq, Debug)]
pub enum Filled {
    Whole,
    Cut(Hours),
}
