// Paths to room: flow moves from hour to hour, down the layers.
ghost use Rattle.std.specs.Prelude.{◌≡◌, ◌<◌, ◌≤◌, true, length, MatchOption};
ghost use Rattle.flow.specs.Filling.{LayeredIn, Keeps};
ghost use Rattle.flow.specs.Lent.{layer};
ghost use Rattle.flow.specs.Path.{Step, NoStep, Freed};

use crate::filling::Filling;
use sets::hours::Hours;

impl Filling<'_> {
    // A task with flow in hour t that may use an hour of the set, and that hour.
    fn pass(&self, near: Hours, t: usize) -> Option<(usize, usize)>
        ensures { MatchOption result (NoStep (length self.now.may.now) self.now.may.now self.now.net.now near t)
            (λ p. Step (length self.now.may.now) self.now.may.now self.now.net.now near t p.0 p.1) }
    {
        let net = &*self.net;
        for (j, row) in self.may.iter().enumerate() {
            if net.marks[j].contains(t) {
                if let Some(u) = row.common(near).lowest() {
                    return Some((j, u));
                }
            }
        }
        None
    }

    // Makes room in hour t of layer d, for at most `want`, by moves down the layers; says how much.
    pub fn free(&mut self, layers: &[Hours; 97], d: usize, t: usize, want: u64) -> u64
        requires depth { d ≤ 96 }
        requires some { 0 < want }
        requires ways { LayeredIn self.old layers.now d }
        requires member { layer layers.now d t ≡ true }
        ensures some { 0 < result }
        ensures freed { Freed (layer layers.now d) self.old.net.now self.old.work.now self.new.net.now self.new.work.now t want result }
        ensures keeps { Keeps self.old self.new }
    {
        if d == 0 {
            return want.min(self.net.room[t]);
        }
        let near = layers[d - 1];
        if near.contains(t) {
            return self.free(layers, d - 1, t, want);
        }
        let Some((j, u)) = self.pass(near, t) else {
            return unreachable();
        };
        let ask = want.min(self.work[j * 96 + t]);
        let got = self.free(layers, d - 1, u, ask);
        self.shift(j, t, u, got);
        got
    }
}
