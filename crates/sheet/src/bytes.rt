// Numbers and rows of bits in bytes.
ghost use Rattle.std.specs.Prelude.{◌≡◌, ℕ, ◌+◌, ◌/◌, ◌%◌, ◌<◌, ◌≤◌, length, MatchOption, slice_index};
ghost use Rattle.sets.specs.Bit.{bit};
ghost use Rattle.night.specs.Format.{width};
ghost use Rattle.sheet.specs.First.{first};
ghost use Rattle.sheet.specs.Sheet.{word};

// The number that the eight bytes from `p` on write.
pub(crate) fn word_at(b: &[u8], p: usize) -> u64
    requires { p + 8 ≤ length b.now }
    ensures { result ≡ word b.now p }
{
    let (words, _) = b[p..p + 8].as_chunks();
    u64::from_le_bytes(words[0])
}

// How many bytes a row of bits takes. (`night` has such a line of its own, for itself alone.)
pub fn row_bytes(bits: usize) -> usize
    requires { bits ≤ 96 }
    ensures { result ≡ width bits }
{
    (bits + 7) / 8
}

// The first byte that is not 0.
fn first_some(row: &[u8]) -> Option<usize>
    ensures { MatchOption result ((i : ℕ) → i < length row.now → slice_index row.now i ≡ 0) (λ k. (k < length row.now) × (0 < slice_index row.now k) × ((i : ℕ) → i < k → slice_index row.now i ≡ 0)) }
{
    row.iter().position(|byte| *byte != 0)
}

// The first bit that is 1 in the row of `n` bits from byte `p` on, if there is one.
pub(crate) fn first_bit(b: &[u8], p: usize, n: usize) -> Option<usize>
    requires n_bound { n ≤ 96 }
    requires n_in_bounds { p + width n ≤ length b.now }
    ensures { let at = first n (λ i. bit (slice_index b.now (p + i / 8)) (i % 8)) in MatchOption result (at ≡ n) (λ i. (i < n) × (at ≡ i)) }
{
    let row = &b[p..p + row_bytes(n)];
    let k = first_some(row)?;
    let i = k * 8 + row[k].trailing_zeros() as usize;
    if i < n { Some(i) } else { None }
}
