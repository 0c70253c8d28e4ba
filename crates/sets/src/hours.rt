// Sets of hours, each operation told by the members of its outcome.
ghost use Rattle.std.specs.Prelude.{◌≡◌, ℕ, ◌<◌, true, false, not, ◌&&◌, ◌||◌, Decides, MatchOption, ◌==◌, nat_lt};
ghost use Rattle.fraction.specs.Sum.{any, both, size};
ghost use Rattle.sets.specs.Hours.{has, Lowest};

// A set of numbers below 128: number i is in it if digit i of `bits` is 1.
#[derive(Clone, Copy, PartialEq, Eq, Debug)]
pub struct Hours {
    bits: u128,
}

impl Hours {
    // The empty set.
    pub fn none() -> Hours
        ensures { (k : ℕ) → has result k ≡ false }
    {
        Hours { bits: 0 }
    }

    // The set whose hours are the binary digits of a number that are 1; named as sets of bits have it, where `From` would not say which number.
    pub fn from_bits(bits: u128) -> Hours
        ensures { result.bits ≡ bits }
    {
        Hours { bits }
    }

    // The number whose binary digits are 1 at the hours of the set; named as above.
    pub fn bits(self) -> u128
        ensures { result ≡ self.bits }
    {
        let Hours { bits } = self;
        bits
    }

    // Hour i alone; nothing, if i is 128 or more.
    pub fn only(i: usize) -> Hours
        ensures { (k : ℕ) → has result k ≡ (k == i && nat_lt k 128) }
    {
        if i < 128 {
            Hours { bits: 1 << i }
        } else {
            Hours::none()
        }
    }

    // All hours below n, up to 128 of them.
    pub fn below(n: usize) -> Hours
        ensures { (k : ℕ) → has result k ≡ (nat_lt k n && nat_lt k 128) }
    {
        if n < 128 {
            Hours { bits: (1 << n) - 1 }
        } else {
            Hours { bits: u128::MAX }
        }
    }

    // Whether hour i is in the set.
    pub fn contains(self, i: usize) -> bool
        ensures { result ≡ has self i }
    {
        i < 128 && (self.bits >> i) & 1 == 1
    }

    // The hours of either set.
    pub fn union(self, other: Hours) -> Hours
        ensures { (k : ℕ) → has result k ≡ (has self k || has other k) }
    {
        Hours {
            bits: self.bits | other.bits,
        }
    }

    // The hours of both sets.
    pub fn common(self, other: Hours) -> Hours
        ensures { (k : ℕ) → has result k ≡ (has self k && has other k) }
    {
        Hours {
            bits: self.bits & other.bits,
        }
    }

    // The hours that the other set does not have.
    pub fn minus(self, other: Hours) -> Hours
        ensures { (k : ℕ) → has result k ≡ (has self k && not (has other k)) }
    {
        Hours {
            bits: self.bits ^ (self.bits & other.bits),
        }
    }

    // The set with hour i; the set as it is, if i is 128 or more.
    pub fn insert(self, i: usize) -> Hours
        ensures { (k : ℕ) → has result k ≡ (has self k || (k == i && nat_lt k 128)) }
    {
        self.union(Hours::only(i))
    }

    // The set without hour i.
    pub fn remove(self, i: usize) -> Hours
        ensures { (k : ℕ) → has result k ≡ (has self k && not (k == i)) }
    {
        self.minus(Hours::only(i))
    }

    // Whether there is no hour in the set.
    pub fn is_empty(self) -> bool
        ensures { result ≡ not (any 128 (has self)) }
    {
        self.bits == 0
    }

    // Whether the sets have an hour in common.
    pub fn meets(self, other: Hours) -> bool
        ensures { result ≡ any 128 (both (has self) (has other)) }
    {
        !self.common(other).is_empty()
    }

    // Whether all hours of the set lie below n.
    pub fn within(self, n: usize) -> bool
        ensures { Decides result ((k : ℕ) → has self k ≡ true → k < n) }
    {
        self.minus(Hours::below(n)).is_empty()
    }

    // How many hours the set has.
    pub fn count(self) -> usize
        ensures { result ≡ size 128 (has self) }
    {
        self.bits.count_ones() as usize
    }

    // The lowest hour of the set, if there is one.
    pub fn lowest(self) -> Option<usize>
        ensures { MatchOption result (any 128 (has self) ≡ false) (λ i. Lowest self i) }
    {
        if self.is_empty() {
            return None;
        }
        Some(self.bits.trailing_zeros() as usize)
    }
}
