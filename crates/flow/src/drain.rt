// Many paths along the layers of one look. What they ship is a bonus: no promise rests on how much it is.
ghost use Rattle.std.specs.Prelude.{◌≡◌, ◌<◌, ◌≤◌, min, true, length, IfSome, ◌≢◌};
ghost use Rattle.sets.specs.Hours.{has};
ghost use Rattle.flow.specs.Filling.{Improves};
ghost use Rattle.flow.specs.Lent.{permits, room};

use crate::filling::Filling;
use sets::hours::Hours;

// An hour below 96, other than t, that is in both sets.
fn way(row: Hours, near: Hours, t: usize) -> Option<usize>
    ensures { IfSome result (λ u. (u < 96) × (t ≢ u) × (has row u ≡ true) × (has near u ≡ true)) }
{
    match row.common(near).lowest() {
        Some(u) if u < 96 && u != t => Some(u),
        _ => None,
    }
}

impl Filling<'_> {
    // The next task, from a number on, with flow in hour t and a way into the set.
    fn next(&self, near: Hours, t: usize, from: usize) -> Option<usize>
        ensures { IfSome result (λ j. (j < length self.now.may.now) × (from ≤ j)) }
    {
        let net = &*self.net;
        let here = Hours::only(t);
        // by number: `zip`, `enumerate`, `skip` and `find` in a row are longer, and read no plainer
        for j in from..self.may.len() {
            if net.marks[j].meets(here) && self.may[j].meets(near) {
                return Some(j);
            }
        }
        None
    }

    // Moves of task j from hour t to hour u as much as there is of it and room for, and at most so much.
    fn slide(&mut self, j: usize, t: usize, u: usize, most: u64)
        requires task { j < length self.old.may.now }
        requires start { t < 96 }
        requires end { u < 96 }
        requires apart { t ≢ u }
        requires allowed { permits self.old.may.now j u ≡ true }
        ensures { Improves self.old self.new }
    {
        if !self.net.marks[j].contains(t) {
            return;
        }
        let d = most.min(self.work[j * 96 + t]).min(self.net.room[u]);
        if d > 0 {
            self.shift(j, t, u, d);
        }
    }

    // Makes room in hour t of layer d by moves down the layers, and says how much of `want` there is. An hour that gave less than
    // it was asked for leaves its layer.
    fn drain(&mut self, layers: &mut [Hours; 97], d: usize, t: usize, want: u64) -> u64
        requires depth { d ≤ 96 }
        requires hour { t < 96 }
        ensures got { result ≡ min want (room self.new.net.now t) }
        ensures improves { Improves self.old self.new }
    {
        if d == 0 {
            return want.min(self.net.room[t]);
        }
        let near = layers[d - 1];
        if near.contains(t) {
            let got = self.drain(layers, d - 1, t, want);
            if got < want {
                layers[d - 1] = layers[d - 1].remove(t);
            }
            return got;
        }
        let mut from = 0;
        for _ in 0..self.may.len() + 96 {
            let here = self.net.room[t];
            if here >= want {
                break;
            }
            let Some(j) = self.next(layers[d - 1], t, from) else {
                break;
            };
            let Some(u) = way(self.may[j], layers[d - 1], t) else {
                break;
            };
            let ask = (want - here).min(self.work[j * 96 + t]);
            let got = self.drain(layers, d - 1, u, ask);
            self.slide(j, t, u, got);
            if got < ask {
                layers[d - 1] = layers[d - 1].remove(u);
                from = j;
            } else {
                from = j + 1;
            }
        }
        want.min(self.net.room[t])
    }

    // Ships of task j along paths from the hours of layer d.
    fn serve(&mut self, layers: &mut [Hours; 97], d: usize, j: usize)
        requires depth { d ≤ 96 }
        requires task { j < length self.old.may.now }
        ensures { Improves self.old self.new }
    {
        for _ in 0..96 {
            let want = self.net.left[j];
            if want == 0 {
                break;
            }
            let Some(u) = way(self.may[j], layers[d], 96) else {
                break;
            };
            let got = self.drain(layers, d, u, want);
            self.stow(j, u);
            if got < want {
                layers[d] = layers[d].remove(u);
            }
        }
    }

    // Ships of every task with something left along paths from the hours of layer d.
    pub fn serve_all(&mut self, layers: &mut [Hours; 97], d: usize)
        requires depth { d ≤ 96 }
        ensures { Improves self.old self.new }
    {
        // by number: each turn changes the whole filling
        for j in 0..self.may.len() {
            self.serve(layers, d, j);
        }
    }
}
