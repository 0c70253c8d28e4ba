// Plans that look even: ways to plan that go wrong, each on a small night that shows it.
use crate::bits::has;
use crate::cells::raise;
use crate::draft::Draft;
use crate::slow::Level;
use std::alloc::{AllocError, Global};

// Loads in parts of a unit as levels.
fn levels(heap: Global, loads: &[u64], parts: u64) -> Result<Vec<Level>, AllocError> {
    loads
        .iter()
        .map(|load| Level {
            units: *load,
            hours: parts,
        })
        .collect(heap)
}

// Each task spread evenly over its own hours, at most eight of them.
pub fn spread(heap: Global, draft: &Draft) -> Result<Vec<Level>, AllocError> {
    let mut loads = vec![in heap; 0u64; draft.hours]?;
    for job in draft.jobs.iter() {
        let share = u64::from(job.units) * 840 / u64::from(job.bits.count_ones()).max(1);
        for (s, load) in loads.iter_mut().enumerate().take(96) {
            if has(job.bits, s) {
                *load = load.saturating_add(share);
            }
        }
    }
    levels(heap, loads.as_slice(), 840)
}

// Each task into the first of its hours that has room under the peak, then into the next one.
pub fn under_peak(heap: Global, draft: &Draft, peak: u64) -> Result<Vec<Level>, AllocError> {
    let mut loads = vec![in heap; 0u64; draft.hours]?;
    for job in draft.jobs.iter() {
        let mut rest = u64::from(job.units);
        for (s, load) in loads.iter_mut().enumerate().take(96) {
            if has(job.bits, s) {
                let share = rest.min(peak.saturating_sub(*load));
                *load = load.saturating_add(share);
                rest = rest.saturating_sub(share);
            }
        }
    }
    levels(heap, loads.as_slice(), 1)
}

// The first hour of a set in which least lies.
fn least(bits: u128, loads: &[u64]) -> Option<usize> {
    loads
        .iter()
        .enumerate()
        .filter(|(s, _)| has(bits, *s))
        .min_by_key(|(_, load)| **load)
        .map(|(s, _)| s)
}

// The tasks one after another, largest first as they stand, each unit of them where least is.
pub fn largest_first(heap: Global, draft: &Draft) -> Result<Vec<Level>, AllocError> {
    let mut loads = vec![in heap; 0u64; draft.hours]?;
    for job in draft.jobs.iter() {
        for _ in 0..job.units {
            if let Some(s) = least(job.bits, loads.as_slice()) {
                raise(loads.as_mut_slice(), s, 1);
            }
        }
    }
    levels(heap, loads.as_slice(), 1)
}
