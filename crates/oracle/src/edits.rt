// Changes of a night, drawn and made in a plain way.
use crate::bits::ones;
use crate::draft::{Draft, Job};
use crate::draw::Draw;
use std::alloc::AllocFailed;

// What a task needs at most.
pub(crate) const MOST_UNITS: u32 = 1_000_000;

#[derive(Clone, Copy)]
pub enum Edit {
    Comes(Job),
    Goes(usize),
    More(usize, u32),
}

// A task for a night of so many hours; one of ten has no hour, one too many, or too many units.
fn newcomer(draw: &mut Draw, hours: usize) -> Job {
    let row = ones(1 + draw.index(8)) << draw.index(hours).min(127);
    match draw.below(30) {
        0 => Job { units: 5, bits: 0 },
        1 => Job {
            units: 5,
            bits: 1 << hours.min(127),
        },
        2 => Job {
            units: MOST_UNITS + 1,
            bits: 1,
        },
        _ => Job {
            units: draw.between(&(0..=1_000_000)) as u32,
            bits: row & ones(hours),
        },
    }
}

// A change; now and then one that can't be made.
pub fn drawn(draw: &mut Draw, draft: &Draft) -> Edit {
    let past = if draw.below(10) == 0 { 2 } else { 0 };
    let j = draw.index(draft.jobs.len().saturating_add(past));
    match draw.below(3) {
        0 => Edit::Goes(j),
        1 => Edit::More(j, (draw.word() & 0xfffff) as u32),
        _ => Edit::Comes(newcomer(draw, draft.hours)),
    }
}

fn fits(draft: &Draft, job: Job) -> bool {
    draft.jobs.len() < 200
        && job.units <= MOST_UNITS
        && job.bits != 0
        && job.bits & !ones(draft.hours) == 0
}

// Why a change is not made.
#[derive(Clone, Copy, PartialEq, Eq)]
pub enum Unmade {
    // it can't be made of this night
    Impossible,
    NoMemory,
}

impl<T: Drop> From<AllocFailed<T>> for Unmade {
    fn from(_: AllocFailed<T>) -> Unmade {
        Unmade::NoMemory
    }
}

// Makes a change; leaves the night as it is where it is not made.
pub fn make(draft: &mut Draft, edit: Edit) -> Result<(), Unmade> {
    match edit {
        Edit::Comes(job) => {
            if !fits(draft, job) {
                return Err(Unmade::Impossible);
            }
            draft.jobs.push(job)?;
        }
        Edit::Goes(j) => {
            if j >= draft.jobs.len() {
                return Err(Unmade::Impossible);
            }
            let _ = draft.jobs.remove(j);
        }
        Edit::More(j, units) => {
            let job = draft.jobs.get_mut(j).ok_or(Unmade::Impossible)?;
            let sum = job.units.saturating_add(units);
            if sum > MOST_UNITS {
                return Err(Unmade::Impossible);
            }
            job.units = sum;
        }
    }
    Ok(())
}
