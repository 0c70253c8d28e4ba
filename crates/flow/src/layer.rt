// Layers of hours by their way to room: how far the hours with room can be reached.
ghost use Rattle.std.specs.Prelude.{◌≡◌, ℕ, ◌<◌, true, length, nat_lt};
ghost use Rattle.sets.specs.Hours.{has};
ghost use Rattle.flow.specs.Lent.{room};
ghost use Rattle.flow.specs.Sight.{Rounds, Seen};

use crate::filling::Filling;
use sets::hours::Hours;
use std::ops::ControlFlow;

// How a look at the layers ends: at which layer, and with the task that waits there, if one does.
pub struct Sight {
    pub depth: usize,
    pub task: Option<usize>,
}

impl Filling<'_> {
    // The hours with room.
    fn roomy(&self) -> Hours
        ensures rooms { (s : ℕ) → s < 96 → has result s ≡ nat_lt 0 (room self.now.net.now s) }
        ensures low { (s : ℕ) → has result s ≡ true → s < 96 }
    {
        let net = &*self.net;
        let mut found = Hours::none();
        for s in self.hours {
            if net.room[s] > 0 {
                found = found.insert(s);
            }
        }
        found
    }

    // One round: it stops at a task that may use an hour of the set and has something left, or goes on with the set and all
    // hours from which a task that may use one of its hours can be moved.
    fn spread(&self, from: Hours) -> ControlFlow<usize, Hours>
        ensures { Rounds (length self.now.may.now) self.now.may.now self.now.net.now from result }
    {
        let net = &*self.net;
        let mut next = from;
        for (j, row) in self.may.iter().enumerate() {
            if row.meets(from) {
                if net.left[j] > 0 {
                    return ControlFlow::Break(j);
                }
                next = next.union(net.marks[j]);
            }
        }
        ControlFlow::Continue(next)
    }

    // Makes layers, from the hours with room on, until one has an hour for a task with something left or no more hour comes in.
    pub fn look(&self, layers: &mut [Hours; 97]) -> Sight
        ensures { Seen (length self.now.may.now) self.now.may.now self.now.net.now layers.new result }
    {
        layers[0] = self.roomy();
        // by number: each layer is made from the one before
        for depth in 0..97 {
            let last = layers[depth];
            match self.spread(last) {
                ControlFlow::Break(j) => return Sight {
                    depth,
                    task: Some(j),
                },
                ControlFlow::Continue(next) => {
                    if next.minus(last).is_empty() {
                        return Sight { depth, task: None };
                    }
                    layers[depth + 1] = next;
                }
            }
        }
        unreachable()
    }
}
