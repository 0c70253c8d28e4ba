// Flows, held against the least cut.
use crate::fault::hold;
use crate::trials::Trial;
use anyhow::anyhow;
use flow::fill::fill;
use flow::net::{Filled, Net};
use oracle::bits::{has, ones};
use oracle::bound::{Freight, bound_by, least_bound};
use oracle::cells::{Row, cell};
use oracle::draft::Draft;
use oracle::draw::Draw;
use oracle::other::columns;
use sets::hours::Hours;
use std::alloc::{AllocError, Global};

// Supplies of the night's units, and capacities that are about as much in all, the same in each hour or not; sometimes an hour is shut.
fn drawn(heap: Global, draw: &mut Draw, draft: &Draft) -> Result<Freight, AllocError> {
    let times = draw.between(&(1..=12));
    let mut supply = Vec::new(heap);
    let mut all: u64 = 0;
    for job in draft.jobs.iter() {
        let units = u64::from(job.units) * times;
        supply.push(units)?;
        all = all.saturating_add(units);
    }
    let about = all / (draft.hours as u64).max(1);
    let is_level = draw.below(2) == 0;
    let mut capacity = [about.saturating_add(draw.below(2)); 96];
    for c in capacity.iter_mut() {
        if !is_level {
            *c = draw.below(about.saturating_mul(2).saturating_add(2));
        }
    }
    let shut = if draw.below(3) == 0 {
        1 << draw.index(96)
    } else {
        0
    };
    Ok(Freight {
        supply,
        open: ones(draft.hours) & !shut,
        capacity,
    })
}

// The hours in which each task may be done.
fn hours(heap: Global, draft: &Draft) -> Result<Vec<Hours>, AllocError> {
    draft
        .jobs
        .iter()
        .map(|job| Hours::from_bits(job.bits))
        .collect(heap)
}

// What flows from the tasks in the hours.
fn amounts(heap: Global, draft: &Draft, net: &Net, work: &[u64]) -> Result<Vec<Row>, AllocError> {
    let mut out = Vec::new(heap);
    for (marks, cells) in net
        .marks
        .iter()
        .zip(work.chunks_exact(96))
        .take(draft.jobs.len())
    {
        let mut row = [0; 96];
        for (s, (x, amount)) in row.iter_mut().zip(cells.iter()).enumerate() {
            if marks.contains(s) {
                *x = *amount;
            }
        }
        out.push(row)?;
    }
    Ok(out)
}

// Whether tasks ship no more than they supply, and only where they may.
fn is_supplied(draft: &Draft, freight: &Freight, amounts: &[Row]) -> bool {
    let tasks = draft.jobs.iter().zip(freight.supply.iter());
    for ((job, supply), row) in tasks.zip(amounts.iter()) {
        let mut left = *supply;
        for (s, amount) in row.iter().enumerate() {
            if *amount > left || (*amount > 0 && !has(job.bits & freight.open, s)) {
                return false;
            }
            left -= *amount;
        }
    }
    true
}

// How much flows in all; nothing where an hour has more than it bears.
fn shipped(freight: &Freight, loads: &[u64]) -> Option<u64> {
    let mut sum: u64 = 0;
    for (load, c) in loads.iter().zip(freight.capacity.iter()) {
        if load > c {
            return None;
        }
        sum = sum.saturating_add(*load);
    }
    Some(sum)
}

// The tasks that may use no hour of the set. The loop of the slow ways' `still`, which takes such tasks out where this puts them in.
fn outside(draft: &Draft, set: u128) -> u128 {
    let mut tasks: u128 = 0;
    for (j, job) in draft.jobs.iter().enumerate() {
        if j < 128 && job.bits & set == 0 {
            tasks |= 1 << j;
        }
    }
    tasks
}

impl Trial {
    // Ships what fits, and holds it against the least cut; says whether all fits.
    fn try_flow(&mut self, draft: &Draft) -> anyhow::Result<bool> {
        let heap = self.heap;
        let freight = drawn(heap, &mut self.draw, draft)?;
        let may = hours(heap, draft)?;
        let mut work = vec![in heap; 7u64; cell(draft.jobs.len(), 0)]?;
        let mut net = Net::new();
        let open = Hours::from_bits(freight.open);
        let Some(filled) = fill(
            may.as_slice(),
            freight.supply.as_slice(),
            open,
            freight.capacity,
            work.as_mut_slice(),
            &mut net,
        ) else {
            return Err(anyhow!("a flow is refused"));
        };
        let amounts = amounts(heap, draft, &net, work.as_slice())?;
        hold(
            is_supplied(draft, &freight, amounts.as_slice()),
            "a flow ships more than there is, or where it may not",
        )?;
        let loads = columns(heap, draft, amounts.as_slice())?;
        let value = shipped(&freight, loads.as_slice());
        hold(
            value == Some(least_bound(draft, &freight)),
            "a flow is too much for an hour, or not the largest",
        )?;
        let tasks = match filled {
            Filled::Whole => 0,
            Filled::Cut(set) => outside(draft, set.bits()),
        };
        hold(
            value == Some(bound_by(draft, &freight, tasks)),
            "a cut is not the least",
        )?;
        Ok(tasks == 0)
    }

    // Tries three flows of a night's tasks.
    pub fn try_flows(&mut self, draft: &Draft) -> anyhow::Result<()> {
        for _ in 0..3 {
            if self.try_flow(draft)? {
                self.tally.whole.add();
            }
            self.tally.flows.add();
        }
        Ok(())
    }
}
