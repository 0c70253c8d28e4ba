// Numbers as bytes, low byte first.
ghost use Rattle.std.specs.Prelude.{◌≡◌, ℕ, ◌^◌, ◌<◌, ◌++◌, length, take, MatchResult};
ghost use Rattle.night.specs.Bytes.{little, digits};

use std::alloc::AllocError;

// The number that the first 16 bytes write, or all, if there are fewer.
pub fn read_little(bytes: &[u8]) -> u128
    ensures value { result ≡ little (take 16 bytes.now) }
    ensures small { result < 256 ^ length bytes.now }
{
    let len = bytes.len().min(16);
    let mut padded = [0; 16];
    padded[..len].copy_from_slice(&bytes[..len]);
    u128::from_le_bytes(padded)
}

// Writes the `width` lowest bytes of n behind what there is; for want of memory, only some of them.
pub fn push_little(out: &mut Vec<u8>, n: u128, width: usize) -> Result<(), AllocError>
    ensures { MatchResult result (λ _. out.new.items ≡ out.old.items ++ digits width n) (λ _. (k : ℕ) × (k < width) × (out.new.items ≡ out.old.items ++ digits k n)) }
{
    // not n.to_le_bytes(), which has 16 bytes: a width may be more
    let mut rest = n;
    for _ in 0..width {
        out.push((rest & 255) as u8)?;
        rest >>= 8;
    }
    Ok(())
}
