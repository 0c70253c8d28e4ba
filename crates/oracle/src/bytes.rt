// Numbers in bytes, low byte first, and the bytes of a night.
ghost use Rattle.std.specs.Prelude.{◌≡◌, ◌+◌, ◌/◌, ◌^◌, ◌<◌, min};
ghost use Rattle.oracle.specs.Little.{little};

use crate::cells::item;
use crate::draft::Draft;
use std::alloc::{AllocError, Global};

// The number that so many bytes write, at most 16 of them.
pub fn number(bytes: &[u8], at: usize, width: usize) -> u128
    ensures { at + width < 2 ^ 64 → result ≡ little bytes.now at (min width 16) }
{
    let w = width.min(16);
    let mut n: u128 = 0;
    // by index, as the definition has it: a byte behind the end counts as 0
    for i in (0..w).rev() {
        n = n * 256 + u128::from(item(bytes, at.saturating_add(i)));
    }
    n
}

// Writes a number in so many bytes; those behind the sixteenth are 0.
pub fn write(out: &mut Vec<u8>, n: u128, width: usize) -> Result<(), AllocError> {
    let bytes = n.to_le_bytes();
    out.extend_from_slice(&bytes[..width.min(16)])?;
    for _ in 16..width {
        out.push(0)?;
    }
    Ok(())
}

// The bytes of a row of bits.
pub fn row_width(hours: usize) -> usize
    ensures { hours + 7 < 2 ^ 64 → result ≡ (hours + 7) / 8 }
{
    hours.saturating_add(7) / 8
}

pub fn night_bytes(heap: Global, draft: &Draft) -> Result<Vec<u8>, AllocError> {
    let mut out = Vec::new(heap);
    write(&mut out, draft.hours as u128, 1)?;
    write(&mut out, draft.jobs.len() as u128, 1)?;
    for job in draft.jobs.iter() {
        write(&mut out, u128::from(job.units), 4)?;
        write(&mut out, job.bits, row_width(draft.hours))?;
    }
    Ok(out)
}
