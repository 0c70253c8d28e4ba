// Numbers as people write them.
ghost use Rattle.std.specs.Prelude.{◌≡◌};
ghost use Rattle.text.specs.Number.{numeral};

// The number that a word of digits writes; nothing for any other word. Numbers too large for u32 are read as its largest.
// Not `parse`, which refuses a number that is too large and takes a sign.
pub fn number(word: &[u8]) -> Option<u32>
    ensures { result ≡ numeral word.now }
{
    if word.is_empty() {
        return None;
    }
    let mut n = 0u32;
    for b in word {
        if !b.is_ascii_digit() {
            return None;
        }
        n = n.saturating_mul(10).saturating_add(u32::from(*b - b'0'));
    }
    Some(n)
}
