// Each way to plan that looks even goes wrong on a small night, and is seen to.
use crate::case::Case;
use crate::fault::hold;
use oracle::draft::{Draft, Job};
use oracle::other::in_parts;
use oracle::slow::{Level, Set, Way, same_loads};
use oracle::tariff::{Step, Tariff};
use oracle::{looks, slow};
use std::alloc::{AllocError, Global};

// A mistake, in words, and a night that shows it: its tasks' units, and their hours as bits.
#[derive(Clone, Copy)]
struct Lesson {
    name: &'static str,
    hours: usize,
    tasks: &'static [(u32, u128)],
}

// Three and fourteen hours, with levels of 333333 1/3 and 333333 5/14.
const THREE: u128 = 0x7;

const FOURTEEN: u128 = 0x1fff8;

const SPREAD: Lesson = Lesson {
    name: "each task spread evenly over its own hours",
    hours: 3,
    tasks: &[(5, 3), (1, 6), (1, 4)],
};

const UNDER_PEAK: Lesson = Lesson {
    name: "the smallest peak, and the rest as it comes",
    hours: 3,
    tasks: &[(4, 1), (1, 6)],
};

const LARGEST_FIRST: Lesson = Lesson {
    name: "the largest tasks first, each where least is",
    hours: 2,
    tasks: &[(4, 3), (3, 1)],
};

const FLOATS: Lesson = Lesson {
    name: "levels in floats of 32 bits",
    hours: 17,
    tasks: &[
        (1_000_000, THREE),
        (933_333, FOURTEEN),
        (933_333, FOURTEEN),
        (933_333, FOURTEEN),
        (933_333, FOURTEEN),
        (933_335, FOURTEEN),
    ],
};

const MORE_GROUPS: Lesson = Lesson {
    name: "of equals the set with the fewest hours",
    hours: 2,
    tasks: &[(2, 1), (2, 2)],
};

const OTHER_SIDE: Lesson = Lesson {
    name: "the other side of a cut",
    hours: 2,
    tasks: &[(6, 1), (2, 3)],
};

const ONE_TARIFF: Lesson = Lesson {
    name: "costs compared for one tariff",
    hours: 3,
    tasks: &[(4, 1), (1, 6)],
};

// The first four units of an hour cost 1 each, and every other 2.
fn dearer_from_four() -> Tariff {
    let mut steps = [Step { from: 4, price: 2 }; 6];
    steps[0] = Step { from: 0, price: 1 };
    Tariff { steps }
}

fn same_cost(heap: Global, a: &[Level], b: &[Level]) -> Result<bool, AllocError> {
    let tariff = dearer_from_four();
    let x = in_parts(heap, a, 2)?;
    let y = in_parts(heap, b, 2)?;
    Ok(tariff.cost(x.as_slice(), 2) == tariff.cost(y.as_slice(), 2))
}

// Whether the loads are ours.
fn are_ours(case: &Case, loads: &[Level]) -> bool {
    same_loads(case.paper.loads.as_slice(), loads)
}

// Whether the groups have our loads.
fn have_our_loads(heap: Global, case: &Case, groups: &[Set]) -> Result<bool, AllocError> {
    let loads = slow::loads(heap, case.draft.hours, groups)?;
    Ok(are_ours(case, loads.as_slice()))
}

// The night of a lesson.
fn night(heap: Global, lesson: Lesson) -> Result<Draft, AllocError> {
    let jobs = lesson
        .tasks
        .iter()
        .map(|(units, bits)| Job {
            units: *units,
            bits: *bits,
        })
        .collect(heap)?;
    Ok(Draft {
        hours: lesson.hours,
        jobs,
    })
}

impl Lesson {
    // The night that shows the mistake, planned.
    fn case(self, heap: Global) -> anyhow::Result<Case> {
        Case::new(heap, night(heap, self)?)
    }

    // Prints a line for the mistake, with its night, if it is seen there.
    fn show(self, rt: &HostRuntime, case: &Case, is_seen: bool) -> anyhow::Result<()> {
        let name = self.name;
        hold(is_seen, name)?;
        let draft = &case.draft;
        println!(rt; "looks even and is not: {name}: {draft}")?;
        Ok(())
    }
}

// Shows the ways to plan that give other loads than ours.
fn show_loads(rt: &HostRuntime) -> anyhow::Result<()> {
    let heap = rt.alloc();
    let case = SPREAD.case(heap)?;
    let loads = looks::spread(heap, &case.draft)?;
    SPREAD.show(rt, &case, !are_ours(&case, loads.as_slice()))?;
    let case = UNDER_PEAK.case(heap)?;
    let loads = looks::under_peak(heap, &case.draft, 4)?;
    UNDER_PEAK.show(rt, &case, !are_ours(&case, loads.as_slice()))?;
    let case = LARGEST_FIRST.case(heap)?;
    let loads = looks::largest_first(heap, &case.draft)?;
    LARGEST_FIRST.show(rt, &case, !are_ours(&case, loads.as_slice()))
}

// Shows the ways to find groups that give other loads than ours, or a group more with the same loads.
fn show_groups(rt: &HostRuntime) -> anyhow::Result<()> {
    let heap = rt.alloc();
    let case = FLOATS.case(heap)?;
    let groups = slow::groups(heap, &case.draft, Way::Floats)?;
    let same = have_our_loads(heap, &case, groups.as_slice())?;
    FLOATS.show(rt, &case, !same)?;
    let case = MORE_GROUPS.case(heap)?;
    let groups = slow::groups(heap, &case.draft, Way::Fewest)?;
    let same = have_our_loads(heap, &case, groups.as_slice())?;
    MORE_GROUPS.show(rt, &case, groups.len() > case.paper.groups.len() && same)?;
    let case = OTHER_SIDE.case(heap)?;
    let groups = slow::groups(heap, &case.draft, Way::OtherSide)?;
    let same = have_our_loads(heap, &case, groups.as_slice())?;
    OTHER_SIDE.show(rt, &case, !same)
}

// Shows other loads at the same cost.
fn show_costs(rt: &HostRuntime) -> anyhow::Result<()> {
    let heap = rt.alloc();
    let case = ONE_TARIFF.case(heap)?;
    let loads = looks::under_peak(heap, &case.draft, 4)?;
    let same = same_cost(heap, case.paper.loads.as_slice(), loads.as_slice())?;
    ONE_TARIFF.show(rt, &case, !are_ours(&case, loads.as_slice()) && same)
}

// Prints a line for each mistake.
pub fn show(rt: &HostRuntime) -> anyhow::Result<()> {
    show_loads(rt)?;
    show_groups(rt)?;
    show_costs(rt)
}
