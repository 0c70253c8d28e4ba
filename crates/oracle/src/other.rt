// Other plans of a night, drawn at random, and how loads are compared. All amounts and loads are whole numbers of parts of a unit.
ghost use Rattle.std.specs.Prelude.{◌<◌};

use crate::bits::has;
use crate::cells::{Row, cell, item, raise};
use crate::draft::{Draft, Job};
use crate::draw::Draw;
use crate::slow::Level;
use std::alloc::{AllocError, Global};

// Any hour of a set; the first one of the night where there is none.
pub fn any_hour(draw: &mut Draw, bits: u128) -> usize {
    let from = draw.index(96);
    (from..96)
        .chain(0..from)
        .find(|s| has(bits, *s))
        .unwrap_or(0)
}

// Splits parts over a task's hours: any share of what is left in each, and the rest in any of them.
fn split(draw: &mut Draw, job: Job, parts: u64) -> Row {
    let mut row = [0; 96];
    let mut rest = parts;
    for (s, x) in row.iter_mut().enumerate() {
        if has(job.bits, s) {
            let share = draw.below(rest.saturating_add(1));
            *x = share;
            rest = rest.saturating_sub(share);
        }
    }
    raise(&mut row, any_hour(draw, job.bits), rest);
    row
}

// A random plan of the night, in so many parts of a unit.
pub fn drawn(
    heap: Global,
    draw: &mut Draw,
    draft: &Draft,
    parts: u64,
) -> Result<Vec<Row>, AllocError> {
    let mut amounts = Vec::new(heap);
    for job in draft.jobs.iter() {
        let all = u64::from(job.units).saturating_mul(parts);
        amounts.push(split(draw, *job, all))?;
    }
    Ok(amounts)
}

// What is done of a task in an hour, 0 behind the last row. The rows stand one behind another: an hour from 96 on falls into
// a later task's.
fn amount(amounts: &[Row], j: usize, s: usize) -> u64 {
    item(amounts.as_flattened(), cell(j, s))
}

// Takes so much from an hour, down to nothing, and adds so much to another.
fn carry(row: &mut Row, from: usize, to: usize, by: u64) {
    if let Some(x) = row.get_mut(from) {
        *x = x.saturating_sub(by);
    }
    raise(row, to, by);
}

// Makes a plan another one near it: of some tasks, a part of what is done in one hour is done in another.
pub fn nudge(draw: &mut Draw, draft: &Draft, amounts: &mut [Row]) {
    for _ in 0..3 {
        let j = draw.index(draft.jobs.len());
        if let Some(job) = draft.jobs.get(j) {
            let from = any_hour(draw, job.bits);
            let to = any_hour(draw, job.bits);
            let by = draw.below(amount(amounts, j, from).saturating_add(1));
            if let Some(row) = amounts.get_mut(j) {
                carry(row, from, to, by);
            }
        }
    }
}

// What lies in each hour.
pub fn columns(heap: Global, draft: &Draft, amounts: &[Row]) -> Result<Vec<u64>, AllocError> {
    (0..draft.hours)
        .map(|s| column(draft, amounts, s))
        .collect(heap)
}

fn column(draft: &Draft, amounts: &[Row], s: usize) -> u64 {
    (0..draft.jobs.len()).fold(0u64, |sum, j| sum.saturating_add(amount(amounts, j, s)))
}

// The greatest common divisor, but 1 in the place of 0.
fn divisor(a: u64, b: u64) -> u64
    ensures { 0 < result }
{
    if b == 0 { a.max(1) } else { divisor(b, a % b) }
}

// The least common multiple, as far as it fits.
fn multiple(a: u64, b: u64) -> u64 {
    (a / divisor(a, b)).saturating_mul(b)
}

// The least number of parts of a unit in which all loads are whole. A load's denominator is at most the number of hours
// that have it, so they add up to 96 at most, and their least common multiple is below 2^28.
pub fn common(loads: &[Level]) -> u64 {
    loads
        .iter()
        .fold(1u64, |parts, load| multiple(parts, load.hours))
}

// Loads in parts.
pub fn in_parts(heap: Global, loads: &[Level], parts: u64) -> Result<Vec<u64>, AllocError> {
    loads
        .iter()
        .map(|load| (parts / load.hours.max(1)).saturating_mul(load.units))
        .collect(heap)
}

// What lies above a level.
fn above(loads: &[u64], level: u64) -> u64 {
    loads
        .iter()
        .fold(0u64, |sum, x| sum.saturating_add(x.saturating_sub(level)))
}

// Whether no more lies above any level in the first plan than in the second; only levels that are loads matter.
pub fn is_more_even(ours: &[u64], theirs: &[u64]) -> bool {
    ours.iter()
        .chain(theirs.iter())
        .all(|level| above(ours, *level) <= above(theirs, *level))
}

pub fn peak(loads: &[u64]) -> u64 {
    loads.iter().copied().max().unwrap_or(0)
}
