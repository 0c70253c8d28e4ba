// Exact sums of amounts over any denominators from 1 to 255, in parts of one whole that all of them divide.
ghost use Rattle.std.specs.Prelude.{◌≡◌, ◌+◌, ◌*◌, ◌/◌, ◌<◌, ◌==◌};
ghost use Rattle.even.specs.Whole.{whole};
ghost use Rattle.sheet.specs.Limbs.{base};
ghost use Rattle.sheet.specs.Tally.{parts};

use crate::limbs::{Limbs, add_times, divided, same};

// The least common multiple of 1, 2, .., 255.
const WHOLE: Limbs = [
    0x77b11561e0ec9980,
    0x828aac71a1852d9f,
    0xc5bab863233ab7e5,
    0x9982fab5bfb714cf,
    0xd5c736238e883de6,
    0x38cca8bd6aa,
    0,
    0,
];

// A sum: words that hold parts, and a run of amounts over one denominator that aren't in the words yet.
#[derive(Clone, Copy)]
pub(crate) struct Tally {
    sum: Limbs,
    run: u64,
    over: u8,
}

impl Tally {
    pub(crate) fn new() -> Tally
        ensures { parts result ≡ 0 }
    {
        Tally {
            sum: [0; 8],
            run: 0,
            over: 1,
        }
    }

    // Moves the run into the words.
    fn settle(&mut self)
        requires { parts self.old < base 8 }
        ensures same { parts self.new ≡ parts self.old }
        ensures none { self.new.run ≡ 0 }
    {
        let share = divided(&WHOLE, self.over);
        let _ = add_times(&mut self.sum, self.run, &share);
        self.run = 0;
    }

    // Adds an amount over a denominator; nothing where the denominator is 0. The words are touched only where the
    // denominator is another one, or the run would overflow.
    pub(crate) fn add(&mut self, amount: u64, over: u8)
        requires { parts self.old + amount * (whole / over) < base 8 }
        ensures { parts self.new ≡ parts self.old + amount * (whole / over) }
    {
        if amount == 0 {
            return;
        }
        if over == self.over && amount <= u64::MAX - self.run {
            self.run += amount;
            return;
        }
        self.settle();
        self.run = amount;
        self.over = over;
    }

    // Is the sum `num` over `den`?
    pub(crate) fn is(mut self, num: u64, den: u8) -> bool
        requires { parts self < base 7 }
        ensures { result ≡ (parts self * den == num * whole) }
    {
        self.settle();
        let mut left = [0; 8];
        let _ = add_times(&mut left, den as u64, &self.sum);
        let mut right = [0; 8];
        let _ = add_times(&mut right, num, &WHOLE);
        same(&left, &right)
    }
}
