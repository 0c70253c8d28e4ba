// Damage of bytes.
use crate::draw::Draw;
use std::alloc::{AllocError, Global};

// Another byte in the place of one: a bit turned, or any byte.
fn edit(draw: &mut Draw, bytes: &mut [u8]) {
    let i = draw.index(bytes.len());
    let any = (draw.word() & 255) as u8;
    let bit = 1u8 << draw.below(8);
    if let Some(byte) = bytes.get_mut(i) {
        *byte = if draw.below(2) == 0 { *byte ^ bit } else { any };
    }
}

// The bytes with up to three other ones, too few, or up to nine too many.
pub fn damaged(heap: Global, draw: &mut Draw, bytes: &[u8]) -> Result<Vec<u8>, AllocError> {
    let mut out = bytes.to_vec(heap)?;
    match draw.below(8) {
        0 => out.truncate(draw.index(bytes.len())),
        1 => {
            for _ in 0..draw.between(&(1..=9)) {
                out.push((draw.word() & 255) as u8)?;
            }
        }
        _ => {
            for _ in 0..draw.between(&(1..=3)) {
                edit(draw, out.as_mut_slice());
            }
        }
    }
    Ok(out)
}
