// The search for the groups of a night's tasks.
ghost use Rattle.std.specs.Prelude.{◌≡◌, ℕ, ◌+◌, List, length, if◌then◌else◌, nat_lt};
ghost use Rattle.level.specs.Crew.{Crews};
ghost use Rattle.level.specs.Parts.{Ready, Held};

use crate::parts::Parts;
use crate::start::start;
use night::task::Task;

// The tasks, with their groups and parts so far. The lent slices stay outside: as fields they would need clauses that each call keeps them.
// That a part waits (`Top`) is a clause of the methods that need one, since a search ends with none; so is `Held`, which has more than one
// proof, where a fact in a type has to have one at most. `split` and `take` are no methods: between their writes the sets of the parts are not
// those of the labels.
#[derive(Drop)]
pub struct Search<'a> {
    pub tasks: &'a [Task],
    pub parts: Parts,
    ghost ready: { Ready tasks.now },
    ghost crews: { Crews (length tasks.now) parts },
}

impl<'a> Search<'a> {
    // All tasks wait as one part.
    pub fn new(tasks: &'a [Task]) -> Search<'a>
        requires { Ready tasks.now }
        ensures tasks { result.tasks.now ≡ tasks.now }
        ensures state { (plan : List ℕ) → Held tasks.now result.parts plan }
        ensures found { result.parts.found ≡ 0 }
        ensures top { result.parts.top + (if nat_lt 0 (length tasks.now) then 1 else 0) ≡ 96 }
    {
        Search {
            tasks,
            parts: start(tasks),
        }
    }
}
