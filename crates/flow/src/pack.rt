// The first fill: each task into the hours that are least wanted. Which hours these are is a hint that no promise rests on.
ghost use Rattle.std.specs.Prelude.{◌≡◌, ℕ, ◌<◌, true, length};
ghost use Rattle.sets.specs.Hours.{has};
ghost use Rattle.flow.specs.Filling.{Improves};
ghost use Rattle.flow.specs.Lent.{permits};

use crate::filling::Filling;
use crate::order::ordered;
use sets::hours::Hours;

// Adds a row to how often each hour is wanted, hour s by digit s of the planes, low digits first.
fn count(planes: &mut [Hours; 8], row: Hours) {
    let mut carry = row;
    for plane in planes.iter_mut() {
        if carry.is_empty() {
            return;
        }
        let both = plane.common(carry);
        *plane = plane.union(carry).minus(both);
        carry = both;
    }
}

// The three highest digits that count.
fn highest(planes: &[Hours; 8]) -> [Hours; 3] {
    let top = planes
        .iter()
        .rposition(|plane| !plane.is_empty())
        .map_or(2, |k| k.max(2));
    [planes[top - 2], planes[top - 1], planes[top]]
}

// Of the hours of a set those that are least wanted.
fn least(ways: Hours, planes: &[Hours; 3]) -> Hours
    ensures { (s : ℕ) → has result s ≡ true → has ways s ≡ true }
{
    let mut rest = ways;
    for plane in planes.iter().rev() {
        let fewer = rest.minus(*plane);
        if !fewer.is_empty() {
            rest = fewer;
        }
    }
    rest
}

impl Filling<'_> {
    // Ships of task j into hour s as much as there is of it and room for.
    pub fn stow(&mut self, j: usize, s: usize)
        requires task { j < length self.old.may.now }
        requires hour { s < 96 }
        requires allowed { permits self.old.may.now j s ≡ true }
        ensures { Improves self.old self.new }
    {
        let d = self.net.left[j].min(self.net.room[s]);
        if d > 0 {
            self.ship(j, s, d);
        }
    }

    // How often each hour is wanted by tasks with something left.
    fn wanted(&self) -> [Hours; 3] {
        let net = &*self.net;
        let none = Hours::none();
        let mut planes = [none; 8];
        for (row, left) in self.may.iter().zip(&net.left) {
            if *left > 0 {
                count(&mut planes, *row);
            }
        }
        highest(&planes)
    }

    // Ships what fits of task j into open hours; says which hours are still open.
    fn load(&mut self, planes: &[Hours; 3], j: usize, hours: Hours) -> Hours
        requires task { j < length self.old.may.now }
        requires low { (s : ℕ) → has hours s ≡ true → s < 96 }
        ensures improves { Improves self.old self.new }
        ensures within { (s : ℕ) → has result s ≡ true → has hours s ≡ true }
    {
        let mut open = hours;
        let mut ways = self.may[j].common(hours);
        while let Some(s) = least(ways, planes).lowest() {
            if self.net.left[j] == 0 {
                return open;
            }
            self.stow(j, s);
            if self.net.room[s] == 0 {
                open = open.remove(s);
            }
            ways = ways.remove(s);
        }
        open
    }

    // Ships what fits at once, task by task, those with few hours first.
    pub fn pack(&mut self)
        ensures { Improves self.old self.new }
    {
        let planes = self.wanted();
        let order = ordered(self.may, self.hours);
        let mut open = self.hours;
        for j in &order[..self.may.len()] {
            let j = *j as usize;
            if j < self.may.len() {
                open = self.load(&planes, j, open);
            }
        }
    }
}
