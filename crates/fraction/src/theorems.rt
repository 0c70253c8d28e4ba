// What comparing fractions means: each function stands for theorems, its `ensures`, and does nothing.
ghost use Rattle.std.specs.Prelude.{◌≡◌, ◌&&◌, ◌==◌};
ghost use Rattle.std.specs.Ordering.{as_partial_cmp, partial_lt, partial_le};
ghost use Rattle.fraction.specs.declared.exact.Fraction.{Fraction};
ghost use Rattle.fraction.specs.Fraction.{less_than, at_most, same_as};
ghost use Rattle.fraction.specs.Order.{fraction_cmp};

// `<`, `<=` and `==` compare the numbers, exactly.
pub fn compares_numbers()
    ensures less { (x y : Fraction) → partial_lt (as_partial_cmp fraction_cmp) x y ≡ less_than x.num x.den y.num y.den }
    ensures most { (x y : Fraction) → partial_le (as_partial_cmp fraction_cmp) x y ≡ at_most x.num x.den y.num y.den }
    ensures same { (x y : Fraction) → (x.num == y.num && x.den == y.den) ≡ same_as x.num x.den y.num y.den }
{}
