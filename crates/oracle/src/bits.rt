// Sets of hours and of tasks as bits.
ghost use Rattle.std.specs.Prelude.{◌≡◌, ◌+◌, ◌/◌, ◌%◌, ◌^◌, min, ◌&&◌, ◌==◌, nat_lt, true};
ghost use Rattle.oracle.specs.Sets.{Among};

// Whether i is in the set.
pub fn has(bits: u128, i: usize) -> bool
    ensures { result ≡ (nat_lt i 128 && bits / 2 ^ i % 2 == 1) }
{
    i < 128 && (bits >> i) & 1 == 1
}

// Whether all of the one set is in the other.
#[tactic(auto, using(crate::proofs::Sets::among_of))]
pub(crate) fn within(a: u128, b: u128) -> bool
    ensures { result ≡ true → Among a b }
{
    a & b == a
}

// The first n, at most 127.
pub fn ones(n: usize) -> u128
    ensures { result + 1 ≡ 2 ^ min n 127 }
{
    (1 << n.min(127)) - 1
}
