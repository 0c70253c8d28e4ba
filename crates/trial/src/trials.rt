// What the trial of a night needs: memory, random numbers, and where it is counted.
use crate::case::Case;
use crate::tally::Tally;
use oracle::draft::Draft;
use oracle::draw::Draw;
use std::alloc::Global;

#[derive(Drop)]
pub struct Trial {
    pub heap: Global,
    pub draw: Draw,
    pub tally: Tally,
}

impl Trial {
    // Tries all that is tried with a night.
    pub fn try_night(&mut self, draft: &Draft) -> anyhow::Result<()> {
        let case = Case::new(self.heap, draft.clone()?)?;
        self.tally.nights.add();
        if case.is_small() {
            self.try_slow(&case)?;
            self.tally.small.add();
            self.try_flows(draft)?;
        }
        self.try_others(&case)?;
        self.try_sheets(&case)?;
        self.try_changes(&case)
    }
}
