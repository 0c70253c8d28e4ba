// The tasks of the part on top, gathered in rising order for a flow.
ghost use Rattle.std.specs.Prelude.{◌≡◌, ℕ, ◌*◌, ◌≤◌, length};
ghost use Rattle.fraction.specs.Sum.{size};
ghost use Rattle.level.specs.Crew.{Manned};
ghost use Rattle.level.specs.Parts.{Top, top_tasks};

use crate::search::Search;
use flow::net::Net;
use sets::hours::Hours;

// Scratch, made once: by position, the hours in which a task may be done, and its supply, two arrays since `fill` takes two slices; and what a
// flow of them is lent.
#[derive(Drop)]
pub struct Crew {
    pub may: [Hours; 200],
    pub supply: [u64; 200],
    pub net: Net,
}

impl Crew {
    pub fn new() -> Crew {
        Crew {
            may: [Hours::none(); 200],
            supply: [0; 200],
            net: Net::new(),
        }
    }
}

impl Search<'_> {
    // Gathers the tasks of the part on top, with q for each unit, and says how many they are.
    pub fn gather(&self, q: u64, crew: &mut Crew) -> usize
        requires top { Top self.now.parts }
        requires small { q ≤ 96 }
        ensures all { result ≡ size (length self.now.tasks.now) (top_tasks self.now.parts) }
        ensures manned { Manned self.now.tasks.now (top_tasks self.now.parts) q (length self.now.tasks.now) crew.new.may crew.new.supply }
    {
        // the count is the result, so the loop keeps it and no `enumerate`
        let mut k = 0;
        'tasks: for j in self.parts.sets[self.parts.top] {
            crew.may[k] = self.tasks[j].hours;
            crew.supply[k] = self.tasks[j].units as u64 * q;
            k += 1;
        }
        k
    }
}
