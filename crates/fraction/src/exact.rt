// A fraction in lowest terms, small enough that a numerator times a denominator stays below 2 ^ 63.
ghost use Rattle.std.specs.Prelude.{◌≡◌, ◌<◌};
ghost use Rattle.fraction.specs.Fraction.{num_end, den_end, Coprime};

// Every numerator is below this.
pub const NUM_END: u64 = 0x8000_0000_0000;

// Every denominator is below this.
pub const DEN_END: u64 = 0x1_0000;

#[derive(Clone, Copy, Debug, PartialEq, Eq)]
pub struct Fraction {
    pub(crate) num: u64,
    pub(crate) den: u64,
    ghost small: { num < num_end },
    ghost some: { 0 < den },
    ghost short: { den < den_end },
    ghost lowest: { Coprime num den },
}

impl Fraction {
    // The numerator.
    pub fn num(self) -> u64
        ensures { result ≡ self.num }
    {
        self.num
    }

    // The denominator.
    pub fn den(self) -> u64
        ensures { result ≡ self.den }
    {
        self.den
    }
}
