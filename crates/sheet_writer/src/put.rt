// Numbers and rows of bits, put into bytes: by place in the whole sheet, since its definitions say of each number where it stands.
ghost use Rattle.std.specs.Prelude.{◌≡◌, ℕ, ◌+◌, ◌*◌, ◌/◌, ◌%◌, ◌<◌, ◌≤◌, true, length, slice_index};
ghost use Rattle.fraction.specs.Sum.{size};
ghost use Rattle.sets.specs.Bit.{bit};
ghost use Rattle.night.specs.Format.{width};
ghost use Rattle.sets.specs.Hours.{has};
ghost use Rattle.sheet.specs.Layout.{listed};
ghost use Rattle.sheet.specs.Sheet.{word};
ghost use Rattle.sheet_writer.specs.Written.{Kept};

use sets::hours::Hours;
use sheet::row_bytes;

// Puts bytes in the place of those from `p` on.
fn put_bytes(b: &mut [u8], p: usize, bytes: &[u8])
    requires { p + length bytes.now ≤ length b.old }
    ensures says { (k : ℕ) → k < length bytes.now → slice_index b.new (p + k) ≡ slice_index bytes.now k }
    ensures kept { Kept p (p + length bytes.now) b.old b.new }
{
    b[p..p + bytes.len()].copy_from_slice(bytes);
}

// Puts a number into the eight bytes from `p` on.
pub(crate) fn put_word(b: &mut [u8], p: usize, n: u64)
    requires { p + 8 ≤ length b.old }
    ensures says { word b.new p ≡ n }
    ensures kept { Kept p (p + 8) b.old b.new }
{
    put_bytes(b, p, &n.to_le_bytes());
}

// Puts the amounts of a row that are those for the hours of a set into the bytes from `p` on. It says where they end.
pub(crate) fn put_row(b: &mut [u8], p: usize, set: Hours, row: &[u64]) -> usize
    requires { p + size (length row.now) (has set) * 8 ≤ length b.old }
    ensures end { result ≡ p + size (length row.now) (has set) * 8 }
    ensures says { (s : ℕ) → s < length row.now → has set s ≡ true → listed b.new p (has set) s ≡ slice_index row.now s }
    ensures kept { Kept p (p + size (length row.now) (has set) * 8) b.old b.new }
{
    let mut at = p;
    for (s, amount) in row.iter().enumerate() {
        if set.contains(s) {
            put_word(b, at, *amount);
            at += 8;
        }
    }
    at
}

// Puts a row of `n` bits, those of the hours of a set, into the bytes from `p` on.
pub(crate) fn put_bits(b: &mut [u8], p: usize, n: usize, set: Hours)
    requires short { n ≤ 96 }
    requires within { p + width n ≤ length b.old }
    ensures says { (s : ℕ) → s < n → bit (slice_index b.new (p + s / 8)) (s % 8) ≡ has set s }
    ensures kept { Kept p (p + width n) b.old b.new }
{
    put_bytes(b, p, &set.bits().to_le_bytes()[..row_bytes(n)]);
}
