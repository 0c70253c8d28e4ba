// How much fits under capacities, by going through all sets of tasks: each set bounds it, and the least bound is reached.
use crate::bits::has;
use crate::cells::item;
use crate::draft::Draft;
use crate::slow::sets;

// Supplies of the tasks (a list of their own, as the flow that is tried is lent them), the hours that may be used, and what each of these bears.
#[derive(Drop)]
pub struct Freight {
    pub supply: Vec<u64>,
    pub open: u128,
    pub capacity: [u64; 96],
}

// What the hours of the bits bear together.
fn borne(capacity: &[u64; 96], bits: u128) -> u64 {
    capacity
        .iter()
        .enumerate()
        .filter(|(s, _)| has(bits, *s))
        .fold(0u64, |sum, (_, c)| sum.saturating_add(*c))
}

// The bound that a set of tasks gives: what the others supply, and what the hours bear that the set may use.
pub fn bound_by(draft: &Draft, freight: &Freight, tasks: u128) -> u64 {
    let mut others: u64 = 0;
    let mut bits: u128 = 0;
    for (j, job) in draft.jobs.iter().enumerate() {
        if has(tasks, j) {
            bits |= job.bits & freight.open;
        } else {
            others = others.saturating_add(item(freight.supply.as_slice(), j));
        }
    }
    others.saturating_add(borne(&freight.capacity, bits))
}

// The least bound.
pub fn least_bound(draft: &Draft, freight: &Freight) -> u64 {
    (0..sets(draft))
        .map(|tasks| bound_by(draft, freight, tasks))
        .min()
        .unwrap_or(u64::MAX)
}
