// Sheets of any plan, and sheets that are wrong in what they say.
use crate::cells::{Row, item};
use crate::draft::Draft;
use crate::draw::Draw;
use crate::other::{any_hour, columns};
use crate::paper::{Paper, Share};
use crate::slow::Level;
use std::alloc::{AllocError, Global};

// By what the denominators of the hours are multiplied: 1 to 4.
fn factors(draw: &mut Draw) -> Row {
    let mut out = [1; 96];
    for x in out.iter_mut() {
        *x = draw.between(&(1..=4));
    }
    out
}

// A sheet of a plan in parts of a unit, at most 63 of them: each hour is a group by itself, and each task is of any of
// them, and so has its denominator.
pub fn sheet_of(
    heap: Global,
    draw: &mut Draw,
    draft: &Draft,
    parts: u64,
    amounts: &[Row],
) -> Result<Paper, AllocError> {
    let by = factors(draw);
    let mut paper = Paper::empty(heap);
    let loads = columns(heap, draft, amounts)?;
    for (s, load) in loads.iter().enumerate() {
        let more = item(&by, s);
        paper.loads.push(Level {
            units: load.saturating_mul(more),
            hours: parts.saturating_mul(more),
        })?;
        paper.groups.push(1 << s.min(127))?;
    }
    // by number: a task may have no row
    for j in 0..draft.jobs.len() {
        let row = amounts.get(j).copied().unwrap_or([0; 96]);
        let g = draw.index(draft.hours);
        let more = item(&by, g);
        paper.shares.push(Share {
            group: (g & 255) as u8,
            amounts: row.map(|x| x.saturating_mul(more)),
        })?;
    }
    Ok(paper)
}

// Takes from one task's amount of an hour what it adds to another, where both are there; now and then so much that both wrap
// around.
fn shift(draw: &mut Draw, paper: &mut Paper, (j, s): (usize, usize), (i, t): (usize, usize)) {
    if let (Some(x), Some(_)) = (paper.amount(j, s), paper.amount(i, t)) {
        let by = if draw.below(4) == 0 {
            1 << 63
        } else {
            draw.below(x.saturating_add(1))
        };
        paper.add(j, s, by.wrapping_neg());
        paper.add(i, t, by);
    }
}

// Makes a sheet wrong, mostly: amounts moved between tasks or hours, a task of another group, an empty group, another denominator.
pub fn bend(draw: &mut Draw, draft: &Draft, paper: &mut Paper) {
    let i = draw.index(draft.jobs.len());
    let j = draw.index(draft.jobs.len());
    let (Some(mine), Some(its)) = (draft.jobs.get(i), draft.jobs.get(j)) else {
        return;
    };
    let s = any_hour(draw, mine.bits & its.bits);
    let t = any_hour(draw, its.bits);
    // A match, as the number is drawn: nobody passes a step in.
    match draw.below(6) {
        0 | 1 => shift(draw, paper, (j, s), (i, s)),
        2 => shift(draw, paper, (j, s), (j, t)),
        3 => {
            if let Some(share) = paper.shares.get_mut(j) {
                share.group = (draw.word() & 127) as u8;
            }
        }
        4 => {
            if let Some(load) = paper.loads.get_mut(s) {
                load.hours = draw.below(256);
            }
        }
        _ => {
            if let Some(bits) = paper.groups.get_mut(s) {
                *bits = 0;
            }
        }
    }
}
