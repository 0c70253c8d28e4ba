// A night with the plan that the programs make of it.
use crate::fault::hold;
use anyhow::anyhow;
use change::evening::{Evening, prepare};
use fraction::Fraction;
use night::night::Night;
use oracle::bytes::night_bytes;
use oracle::draft::Draft;
use oracle::paper::Paper;
use oracle::slow::MOST_JOBS;
use std::alloc::Global;

// A night, in the trial's form and in ours; the sheet of our plan, and what a plain reader reads there.
#[derive(Drop)]
pub struct Case {
    pub draft: Draft,
    pub night: Night,
    pub sheet: Vec<u8>,
    pub paper: Paper,
}

// Whether the night has the draft's hours and tasks. No ==, here and below: both types are of other crates.
pub fn is_as(night: &Night, draft: &Draft) -> bool {
    let (tasks, jobs) = (night.tasks(), draft.jobs.as_slice());
    night.hours() == draft.hours
        && tasks.len() == jobs.len()
        && tasks.iter().zip(jobs.iter()).all(|(task, job)| task.units == job.units
            && task.hours.bits() == job.bits)
}

// Whether the sheet has the loads of the plan, in lowest terms.
pub fn has_loads(paper: &Paper, loads: &[Fraction; 96]) -> bool {
    paper
        .loads
        .iter()
        .zip(loads.iter())
        .all(|(a, b)| a.units == b.num() && a.hours == b.den())
}

// The night of the draft, read from bytes.
fn read(heap: Global, draft: &Draft) -> anyhow::Result<Night> {
    let bytes = night_bytes(heap, draft)?;
    let Ok(night) = night::read(heap, bytes.as_slice()) else {
        return Err(anyhow!("a sound night is refused"));
    };
    hold(is_as(&night, draft), "a night is read as another one")?;
    Ok(night)
}

impl Case {
    // Plans the night of a draft.
    pub fn new(heap: Global, draft: Draft) -> anyhow::Result<Case> {
        let night = read(heap, &draft)?;
        let Ok(evening) = prepare(heap, &night, &[]) else {
            return Err(anyhow!("a night is not planned"));
        };
        let mut sheet = evening.sheet.as_slice().to_vec(heap)?;
        sheet.truncate(evening.planned.length);
        let paper = Paper::read(heap, &draft, sheet.as_slice())?;
        hold(
            has_loads(&paper, &evening.planned.levels.loads),
            "the sheet has other loads than the plan",
        )?;
        Ok(Case {
            draft,
            night,
            sheet,
            paper,
        })
    }

    // Whether the slow ways take the night.
    pub fn is_small(&self) -> bool {
        self.draft.jobs.len() <= MOST_JOBS
    }
}
