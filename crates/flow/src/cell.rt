// Changes of one cell: what is put into it and taken out of it, shipped and moved.
ghost use Rattle.std.specs.Prelude.{◌≡◌, ℕ, ◌+◌, ◌*◌, ◌^◌, ◌<◌, ◌≤◌, true, length, ◌≢◌};
ghost use Rattle.flow.specs.Filling.{Ships, Shifts};
ghost use Rattle.flow.specs.Lent.{permits, flow, left, room, Marks, Grew};

use crate::filling::Filling;
use crate::net::Net;

// Adds d to cell (j, s), and takes it from the room in hour s. No method of a fill, nor is `take`: between the writes the flow is
// not sound.
fn put(net: &mut Net, work: &mut [u64], j: usize, s: usize, d: u64)
    requires tasks { j < 200 }
    requires hours { s < 96 }
    requires cells { j * 96 + s < length work.old }
    requires some { 0 < d }
    requires roomy { d ≤ room net.old s }
    requires fits { flow net.old work.old j s + d < 2 ^ 64 }
    ensures grew { Grew net.old work.old net.new work.new j s d }
    ensures lefts { net.new.left ≡ net.old.left }
    ensures marks { (m : ℕ) → Marks m net.old.marks work.old → Marks m net.new.marks work.new }
{
    let marks = net.marks[j];
    let k = j * 96 + s;
    net.room[s] -= d;
    if marks.contains(s) {
        work[k] += d;
    } else {
        work[k] = d;
        net.marks[j] = marks.insert(s);
    }
}

// Takes d from cell (j, s), and gives it to the room in hour s.
fn take(net: &mut Net, work: &mut [u64], j: usize, s: usize, d: u64)
    requires tasks { j < 200 }
    requires hours { s < 96 }
    requires cells { j * 96 + s < length work.old }
    requires some { 0 < d }
    requires flows { d ≤ flow net.old work.old j s }
    requires fits { room net.old s + d < 2 ^ 64 }
    ensures fell { Grew net.new work.new net.old work.old j s d }
    ensures lefts { net.new.left ≡ net.old.left }
    ensures marks { (m : ℕ) → Marks m net.old.marks work.old → Marks m net.new.marks work.new }
{
    let k = j * 96 + s;
    net.room[s] += d;
    work[k] -= d;
    if work[k] == 0 {
        let marks = net.marks[j];
        net.marks[j] = marks.remove(s);
    }
}

impl Filling<'_> {
    // Ships d of task j into hour s.
    pub fn ship(&mut self, j: usize, s: usize, d: u64)
        requires task { j < length self.old.may.now }
        requires hour { s < 96 }
        requires allowed { permits self.old.may.now j s ≡ true }
        requires some { 0 < d }
        requires waits { d ≤ left self.old.net.now j }
        requires roomy { d ≤ room self.old.net.now s }
        ensures { Ships self.old self.new j s d }
    {
        put(self.net, self.work, j, s, d);
        self.net.left[j] -= d;
    }

    // Moves d of task j from hour t to hour u.
    pub fn shift(&mut self, j: usize, t: usize, u: usize, d: u64)
        requires task { j < length self.old.may.now }
        requires start { t < 96 }
        requires end { u < 96 }
        requires apart { t ≢ u }
        requires allowed { permits self.old.may.now j u ≡ true }
        requires some { 0 < d }
        requires flows { d ≤ flow self.old.net.now self.old.work.now j t }
        requires roomy { d ≤ room self.old.net.now u }
        ensures { Shifts self.old self.new j t u d }
    {
        take(self.net, self.work, j, t, d);
        put(self.net, self.work, j, u, d);
    }
}
