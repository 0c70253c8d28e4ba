// A night as the trial holds it, in a form of its own that shares nothing with the crates that are tried.
use crate::bits::has;
use std::fmt;

// What a task needs, and a bit for each hour in which it may be done.
#[derive(Clone, Copy)]
pub struct Job {
    pub units: u32,
    pub bits: u128,
}

#[derive(Clone, Drop)]
pub struct Draft {
    pub hours: usize,
    pub jobs: Vec<Job>,
}

// As people write nights: the hours, then of each task its units and its hours.
impl fmt::Display for Draft {
    fn fmt<W: fmt::Write>(&self, f: &mut fmt::Formatter<W>) -> fmt::Result {
        let hours = self.hours;
        write!(f, "{hours} hours")?;
        for job in self.jobs.iter() {
            let units = job.units;
            write!(f, ", {units} :")?;
            for s in 0..96usize {
                if has(job.bits, s) {
                    write!(f, " {s}")?;
                }
            }
        }
        Ok(())
    }
}
