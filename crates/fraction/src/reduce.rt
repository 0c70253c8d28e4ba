// Making fractions: lowest terms by Euclid's algorithm.
ghost use Rattle.std.specs.Prelude.{◌≡◌, is_some, IfSome, nat_lt};
ghost use Rattle.fraction.specs.Fraction.{num_end, fits, Greatest, Reduced};

use crate::exact::{DEN_END, Fraction, NUM_END};

// The greatest common divisor, by Euclid's algorithm, since std has none; that of 0 and 0 is 0.
fn gcd(a: u64, b: u64) -> u64
    ensures { Greatest result a b }
{
    let mut big = a;
    let mut small = b;
    while small > 0 {
        let rest = big % small;
        big = small;
        small = rest;
    }
    big
}

impl Fraction {
    // The fraction num / den in lowest terms; none if den is 0 or a bound is passed.
    pub fn reduced(num: u64, den: u64) -> Option<Fraction>
        ensures test { is_some result ≡ fits num den }
        ensures value { IfSome result (λ f. Reduced num den f.num f.den) }
    {
        if den == 0 || num >= NUM_END || den >= DEN_END {
            return None;
        }
        let g = gcd(num, den);
        Some(Fraction {
            num: num / g,
            den: den / g,
        })
    }

    // The fraction n / 1; none if n passes the bound. A `TryFrom` would give an error type with the one value that None is here.
    pub fn whole(n: u64) -> Option<Fraction>
        ensures test { is_some result ≡ nat_lt n num_end }
        ensures value { IfSome result (λ f. (f.num ≡ n) × (f.den ≡ 1)) }
    {
        if n >= NUM_END {
            return None;
        }
        Some(Fraction { num: n, den: 1 })
    }

    // The fraction 0 / 1.
    pub fn zero() -> Fraction
        ensures { (result.num ≡ 0) × (result.den ≡ 1) }
    {
        Fraction { num: 0, den: 1 }
    }
}
