// Numbers below 2^512, as eight words of 64 bits, low word first.
ghost use Rattle.std.specs.Prelude.{◌≡◌, ℕ, ◌+◌, ◌*◌, ◌/◌, ◌^◌, ◌<◌, ◌≤◌, ◌==◌};
ghost use Rattle.sheet.specs.Limbs.{base, value};

// A number below 2^512.
pub(crate) type Limbs = [u64; 8];

// The low and the high word of a product and two more words, which always fit two.
fn fused(a: u64, b: u64, c: u64, d: u64) -> (u64, u64)
    ensures { result.0 + result.1 * 2 ^ 64 ≡ a * b + c + d }
{
    let t = a as u128 * b as u128 + c as u128 + d as u128;
    ((t & 0xffff_ffff_ffff_ffff) as u64, (t >> 64) as u64)
}

// Adds `by` times `what` to `to`, and returns what does not fit.
pub(crate) fn add_times(to: &mut Limbs, by: u64, what: &Limbs) -> u64
    ensures { value to.new + result * base 8 ≡ value to.old + by * value what.now }
{
    let mut carry: u64 = 0;
    // by index: a word that `iter_mut` lends under `zip` is unknown afterwards
    for (i, word) in what.iter().enumerate() {
        let (low, high) = fused(by, *word, to[i], carry);
        to[i] = low;
        carry = high;
    }
    carry
}

// `what` divided by `by`, rounded down; 0 where `by` is 0.
pub(crate) fn divided(what: &Limbs, by: u8) -> Limbs
    ensures { value result ≡ value what.now / by }
{
    let mut out = [0; 8];
    if by == 0 {
        return out;
    }
    let mut rest: u64 = 0;
    // by index, as above
    for k in (0..8).rev() {
        let t = rest as u128 * 0x1_0000_0000_0000_0000 + what[k] as u128;
        out[k] = (t / by as u128) as u64;
        rest = (t % by as u128) as u64;
    }
    out
}

// Are they the same number?
pub(crate) fn same(a: &Limbs, b: &Limbs) -> bool
    ensures { result ≡ (value a.now == value b.now) }
{
    a == b
}
