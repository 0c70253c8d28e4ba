// The checker of sheets, held against a plain checker.
use crate::case::Case;
use crate::fault::hold;
use crate::trials::Trial;
use anyhow::anyhow;
use oracle::damage::damaged;
use oracle::other;
use oracle::paper::{Paper, Wrong, checked};
use oracle::papers::{bend, sheet_of};
use refusals::Numbered;
use sheet::refusal::Refusal;

// A refusal in the plain checker's words. No impl of From, since both types are of other crates.
fn wrong(refusal: Refusal) -> Wrong {
    match refusal {
        Refusal::Length(at) => Wrong::Length(at),
        Refusal::Load(s) => Wrong::Load(s),
        Refusal::Task(j) => Wrong::Task(j),
        Refusal::Uneven(j, s, t) => Wrong::Uneven(j, s, t),
    }
}

// The number, the place and the two hours by which people are told of a refusal.
fn told(refusal: Refusal) -> (usize, usize, (usize, usize)) {
    match refusal {
        Refusal::Length(at) => (1, at, (0, 0)),
        Refusal::Load(s) => (7, s, (0, 0)),
        Refusal::Task(j) => (8, j, (0, 0)),
        Refusal::Uneven(j, s, t) => (9, j, (s, t)),
    }
}

impl Trial {
    // Counts what is said of a sheet.
    fn count(&mut self, said: Result<(), Wrong>) {
        match said {
            Ok(()) => self.tally.accepted.add(),
            Err(Wrong::Length(_)) => self.tally.lengths.add(),
            Err(Wrong::Load(_)) => self.tally.loads.add(),
            Err(Wrong::Task(_)) => self.tally.tasks.add(),
            Err(Wrong::Uneven(_, _, _)) => self.tally.uneven.add(),
        }
    }

    // Has a sheet checked in both ways.
    fn try_bytes(&mut self, case: &Case, bytes: &[u8]) -> anyhow::Result<Result<(), Wrong>> {
        let said = match sheet::check(&case.night, bytes) {
            Ok(_) => Ok(()),
            Err(refusal) => {
                hold(
                    (refusal.number(), refusal.place(), refusal.hours()) == told(refusal),
                    "a refusal has another number, place or hours",
                )?;
                Err(wrong(refusal))
            }
        };
        hold(
            said == checked(self.heap, &case.draft, bytes)?,
            "the checker says another thing of a sheet",
        )?;
        self.count(said);
        Ok(said)
    }

    // Has a sheet checked; then damaged ones, and ones that are wrong in what they say, more and more. What is said of the sheet itself.
    fn try_near(&mut self, case: &Case, mut paper: Paper) -> anyhow::Result<Result<(), Wrong>> {
        let bytes = paper.written(self.heap, &case.draft)?;
        let said = self.try_bytes(case, bytes.as_slice())?;
        for _ in 0..4 {
            let other = damaged(self.heap, &mut self.draw, bytes.as_slice())?;
            let _ = self.try_bytes(case, other.as_slice())?;
        }
        for _ in 0..3 {
            bend(&mut self.draw, &case.draft, &mut paper);
            let other = paper.written(self.heap, &case.draft)?;
            let _ = self.try_bytes(case, other.as_slice())?;
        }
        Ok(said)
    }

    // Has sheets checked: ours, another one of our plan where denominators allow it, and one of another plan.
    pub fn try_sheets(&mut self, case: &Case) -> anyhow::Result<()> {
        let heap = self.heap;
        let draft = &case.draft;
        let paper = Paper::read(heap, draft, case.sheet.as_slice())?;
        hold(
            paper.written(heap, draft)?.as_slice() == case.sheet.as_slice(),
            "our sheet has other bytes",
        )?;
        hold(self.try_near(case, paper)?.is_ok(), "our sheet is refused")?;
        let parts = other::common(case.paper.loads.as_slice());
        if parts <= 63 {
            let amounts = case.paper.in_parts(heap, draft, parts)?;
            let paper = sheet_of(heap, &mut self.draw, draft, parts, amounts.as_slice())?;
            hold(
                self.try_near(case, paper)?.is_ok(),
                "our plan in another sheet is refused",
            )?;
        }
        let parts = self.draw.between(&(1..=63));
        let amounts = other::drawn(heap, &mut self.draw, draft, parts)?;
        let paper = sheet_of(heap, &mut self.draw, draft, parts, amounts.as_slice())?;
        match self.try_near(case, paper)? {
            Ok(()) | Err(Wrong::Uneven(_, _, _)) => Ok(()),
            Err(_) => Err(anyhow!("a plan's sheet is wrong")),
        }
    }
}
