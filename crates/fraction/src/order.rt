// The order of fractions, exactly, by cross products.
ghost use Rattle.std.specs.Prelude.{◌≡◌, ◌*◌, ◌<◌, refl};
ghost use Rattle.std.specs.Ordering.{as_partial_cmp};
ghost use Rattle.fraction.specs.Fraction.{product_end};
ghost use Rattle.fraction.specs.Order.{fraction_cmp};
ghost use Rattle.fraction.specs.OrderLaws.{fractions_total, fractions_partial, fractions_tie};

use crate::exact::Fraction;
use std::cmp::Ordering;

// The numerator of a times the denominator of b.
fn cross(a: Fraction, b: Fraction) -> u64
    ensures value { result ≡ a.num * b.den }
    ensures below { result < product_end }
{
    a.num * b.den
}

impl Ord for Fraction {
    ghost cmp = { fraction_cmp };

    ghost total = { fractions_total };

    ghost matches_partial_cmp = { λ x y. refl };

    ghost matches_eq = { fractions_tie };

    fn cmp(&self, other: &Fraction) -> Ordering {
        cross(*self, *other).cmp(&cross(*other, *self))
    }
}

impl PartialOrd for Fraction {
    ghost partial_cmp = { as_partial_cmp fraction_cmp };

    ghost laws = { fractions_partial };

    fn partial_cmp(&self, other: &Fraction) -> Option<Ordering> {
        Some(self.cmp(other))
    }
}
