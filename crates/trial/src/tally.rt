// What was tried, and how often.
use std::fmt;

#[derive(Clone, Copy, Default)]
pub struct Count(u64);

impl Count {
    // Counts one more.
    pub fn add(&mut self) {
        self.0 = self.0.saturating_add(1);
    }
}

#[derive(Default, Drop)]
pub struct Tally {
    pub nights: Count,
    pub small: Count,
    pub flows: Count,
    pub whole: Count,
    pub others: Count,
    pub near: Count,
    pub accepted: Count,
    pub lengths: Count,
    pub loads: Count,
    pub tasks: Count,
    pub uneven: Count,
    pub rows: Count,
    pub refused: Count,
}

impl fmt::Display for Tally {
    fn fmt<W: fmt::Write>(&self, f: &mut fmt::Formatter<W>) -> fmt::Result {
        let lines = [
            (self.nights, "nights"),
            (
                self.small,
                "nights of few tasks, with the groups of both slow ways",
            ),
            (self.flows, "flows as large as the least cut"),
            (self.whole, "of them whole"),
            (
                self.others,
                "other plans, none more even, lower at its peak or cheaper",
            ),
            (self.near, "other plans near ours, neither"),
            (self.accepted, "sheets accepted, as by the plain checker"),
            (self.lengths, "sheets refused with 1, as by it"),
            (self.loads, "sheets refused with 7"),
            (self.tasks, "sheets refused with 8"),
            (self.uneven, "sheets refused with 9"),
            (
                self.rows,
                "rows of changes with the loads of the night planned anew",
            ),
            (self.refused, "rows of changes refused at the same change"),
        ];
        for (Count(n), name) in lines {
            writeln!(f, "{n} {name}")?;
        }
        Ok(())
    }
}
