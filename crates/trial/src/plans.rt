// The plan of a night, held against the slow ways and against other plans.
use crate::case::Case;
use crate::fault::hold;
use crate::trials::Trial;
use oracle::bits::has;
use oracle::cells::Row;
use oracle::paper::Paper;
use oracle::slow::{Set, Way};
use oracle::tariff::Tariff;
use oracle::{other, slow};

// Whether the plan's groups are the sets: their hours, and their tasks.
fn has_groups(paper: &Paper, sets: &[Set]) -> bool {
    paper.groups.len() == sets.len()
        && paper
            .groups
            .iter()
            .zip(sets.iter())
            .all(|(bits, set)| *bits == set.bits)
        && paper.shares.iter().enumerate().all(|(j, share)| {
            sets.get(usize::from(share.group))
                .is_some_and(|set| has(set.tasks, j))
        })
}

impl Trial {
    // Holds the plan of a night of few tasks against the two slow ways.
    pub fn try_slow(&self, case: &Case) -> anyhow::Result<()> {
        let heap = self.heap;
        let sets = slow::groups(heap, &case.draft, Way::Densest)?;
        let loads = slow::loads(heap, case.draft.hours, sets.as_slice())?;
        hold(
            slow::same_loads(case.paper.loads.as_slice(), loads.as_slice()),
            "loads are not those of the slow way",
        )?;
        hold(
            has_groups(&case.paper, sets.as_slice()),
            "groups are not those of the slow way",
        )?;
        let cuts = slow::groups(heap, &case.draft, Way::Cut)?;
        hold(
            has_groups(&case.paper, cuts.as_slice()),
            "groups are not those by cuts",
        )
    }

    // Holds the loads against those of another plan in parts of a unit: at every level, at the peak, and by what they cost.
    fn hold_even(&mut self, case: &Case, parts: u64, amounts: &[Row]) -> anyhow::Result<()> {
        let ours = other::in_parts(self.heap, case.paper.loads.as_slice(), parts)?;
        let theirs = other::columns(self.heap, &case.draft, amounts)?;
        let (a, b) = (ours.as_slice(), theirs.as_slice());
        hold(other::is_more_even(a, b), "another plan is more even")?;
        hold(
            other::peak(a) <= other::peak(b),
            "another plan has a lower peak",
        )?;
        let tariff = Tariff::drawn(&mut self.draw, other::peak(b) / parts.max(1));
        hold(
            tariff.cost(a, parts) <= tariff.cost(b, parts),
            "another plan costs less",
        )
    }

    // Holds the loads against those of other plans: some drawn anyhow, some near ours.
    pub fn try_others(&mut self, case: &Case) -> anyhow::Result<()> {
        let parts = other::common(case.paper.loads.as_slice());
        let mut near = case.paper.in_parts(self.heap, &case.draft, parts)?;
        for _ in 0..3 {
            let any = other::drawn(self.heap, &mut self.draw, &case.draft, parts)?;
            self.hold_even(case, parts, any.as_slice())?;
            self.tally.others.add();
            other::nudge(&mut self.draw, &case.draft, near.as_mut_slice());
            self.hold_even(case, parts, near.as_slice())?;
            self.tally.near.add();
        }
        Ok(())
    }
}
