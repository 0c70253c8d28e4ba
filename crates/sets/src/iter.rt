// The numbers of a set, one after another, the lowest first.
ghost use Rattle.std.specs.Prelude.{◌≡◌, ℕ, Bool};
ghost use Rattle.std.specs.Iterator.{at_most};
ghost use Rattle.fraction.specs.Sum.{size};
ghost use Rattle.sets.specs.Hours.{has as has_hour};
ghost use Rattle.sets.specs.Iter.{Takes};

use crate::hours::Hours;

// A set of numbers below a bound, told by its members.
pub trait IndexSet: Copy {
    ghost end: { ℕ };

    ghost has: { Self → ℕ → Bool };

    // Takes the lowest number out of the set.
    fn take_lowest(&mut self) -> Option<usize>
        ensures { Takes end (has self.old) result (has self.new) };
}

impl IndexSet for Hours {
    ghost end = { 128 };

    ghost has = { has_hour };

    fn take_lowest(&mut self) -> Option<usize> {
        let i = self.lowest()?;
        *self = self.remove(i);
        Some(i)
    }
}

// What of a set is still to come.
#[derive(Clone, Copy)]
pub struct Members<S> {
    rest: S,
}

impl<S: IndexSet> Members<S> {
    // All of a set.
    pub fn of(set: S) -> Members<S>
        ensures { result.rest ≡ set }
    {
        Members { rest: set }
    }
}

impl<S: IndexSet> Iterator for Members<S> {
    type Item = usize;

    ghost next_gives = { λ m r n. Takes S.end (S.has m.rest) r (S.has n.rest) };

    ghost remaining = { λ m. at_most (size S.end (S.has m.rest)) };

    fn next(&mut self) -> Option<usize> {
        self.rest.take_lowest()
    }
}

impl IntoIterator for Hours {
    type Item = usize;

    type IntoIter = Members<Hours>;

    ghost into_iter_gives = { λ set m. m.rest ≡ set };

    fn into_iter(self) -> Members<Hours> {
        Members::of(self)
    }
}
