// Fractions as text: 8/3, or 6 where the denominator is 1.
ghost use Rattle.std.specs.Prelude.{Some};
ghost use Rattle.fraction.specs.Fraction.{fraction_text};

use crate::exact::Fraction;
use std::fmt;

impl fmt::Display for Fraction {
    ghost output = { λ x. Some (fraction_text x.num x.den) };

    fn fmt<W: fmt::Write>(&self, f: &mut fmt::Formatter<W>) -> fmt::Result {
        let num = self.num;
        let den = self.den;
        if den == 1 {
            write!(f, "{num}")
        } else {
            write!(f, "{num}/{den}")
        }
    }
}
