// The groups of a night by going through all sets of tasks one by one, for nights of few tasks; and the same with a mistake.
ghost use Rattle.std.specs.Prelude.{◌≡◌, ℕ, ◌*◌, ◌<◌, true, length, ◌==◌, nat_lt, slice_index_or};
ghost use Rattle.oracle.specs.Levels.{Same, none};
ghost use Rattle.oracle.specs.Sets.{Among};

use crate::bits::{has, ones, within};
use crate::draft::{Draft, Job};
use std::alloc::{AllocError, Global};
use std::num::nearest_u64_to_f32;

// The slow ways take nights of at most so many tasks.
pub const MOST_JOBS: usize = 10;

// How many sets of tasks there are: as bits, all numbers below.
pub fn sets(draft: &Draft) -> u128 {
    1 << draft.jobs.len().min(MOST_JOBS)
}

// Units over hours, not in lowest terms.
#[derive(Clone, Copy)]
pub struct Level {
    pub units: u64,
    pub hours: u64,
}

impl Level {
    fn cross(self, other: Level) -> u128
        ensures { result ≡ self.units * other.hours }
    {
        (self.units as u128) * (other.hours as u128)
    }

    // No == or Ord: a level may be over no hours, and 0 over 0 is the same as every level, which no law of either allows.
    pub fn same(self, other: Level) -> bool
        ensures { result ≡ (self.units * other.hours == other.units * self.hours) }
    {
        self.cross(other) == other.cross(self)
    }

    pub fn less(self, other: Level) -> bool
        ensures { result ≡ nat_lt (self.units * other.hours) (other.units * self.hours) }
    {
        self.cross(other) < other.cross(self)
    }

    fn rounded(self) -> f32 {
        nearest_u64_to_f32(self.units) / nearest_u64_to_f32(self.hours)
    }
}

// Tasks, as bits, with their units and those of the hours left in which at least one of them may be done.
#[derive(Clone, Copy)]
pub struct Set {
    pub tasks: u128,
    pub units: u64,
    pub bits: u128,
}

impl Set {
    pub fn level(self) -> Level {
        Level {
            units: self.units,
            hours: u64::from(self.bits.count_ones()),
        }
    }

    // Whether it is denser than another set, or as dense with at least as many hours.
    fn denser_or_longer(self, other: Set) -> bool {
        let (mine, its) = (self.level(), other.level());
        its.less(mine) || (its.same(mine) && its.hours <= mine.hours)
    }

    // Whether it is denser, or as dense with fewer hours.
    fn denser_or_shorter(self, other: Set) -> bool {
        let (mine, its) = (self.level(), other.level());
        its.less(mine) || (its.same(mine) && mine.hours < its.hours)
    }

    // Whether floats say that it is denser, or as dense with at least as many hours.
    fn denser_in_floats(self, other: Set) -> bool {
        let (mine, its) = (self.level(), other.level());
        its.rounded() < mine.rounded()
            || (its.rounded() == mine.rounded() && its.hours <= mine.hours)
    }

    // Whether it weighs more above a level than another set, or as much with at least as many hours.
    fn outweighs(self, other: Set, level: Level) -> bool {
        let mine = self.level();
        let its = other.level();
        let a = mine.cross(level).saturating_add(level.cross(its));
        let b = its.cross(level).saturating_add(level.cross(mine));
        a > b || (a == b && its.hours <= mine.hours)
    }
}

// What the tasks weigh.
#[tactic(auto, using(crate::proofs::Sets::and_among_r))]
fn weigh(jobs: &[Job], tasks: u128, left: u128) -> Set
    ensures same { result.tasks ≡ tasks }
    ensures hours { Among result.bits left }
{
    let mut units: u64 = 0;
    let mut bits: u128 = 0;
    for (j, job) in jobs.iter().enumerate() {
        if has(tasks, j) {
            units = units.saturating_add(u64::from(job.units));
            bits |= job.bits;
        }
    }
    Set {
        tasks,
        units,
        bits: bits & left,
    }
}

// Of the sets of the open tasks the last one that beats those before it, from all of them on.
fn best<F: Fn(Set, Set) -> bool>(draft: &Draft, open: u128, left: u128, beats: F) -> Set
    requires { F.IsAlwaysCallable beats }
    ensures tasks { Among result.tasks «open» }
    ensures hours { Among result.bits left }
{
    let mut best = weigh(draft.jobs.as_slice(), open, left);
    for tasks in 1..sets(draft) {
        if within(tasks, open) {
            let set = weigh(draft.jobs.as_slice(), tasks, left);
            if beats(set, best) {
                best = set;
            }
        }
    }
    best
}

// The next group: the densest set of the open tasks, of equals the one with the most hours. This is right.
pub fn densest(draft: &Draft, open: u128, left: u128) -> Set
    ensures tasks { Among result.tasks «open» }
    ensures hours { Among result.bits left }
{
    best(draft, open, left, Set::denser_or_longer)
}

// The densest set, of equals the one with the fewest hours: more groups than there are.
pub fn fewest(draft: &Draft, open: u128, left: u128) -> Set
    ensures tasks { Among result.tasks «open» }
    ensures hours { Among result.bits left }
{
    best(draft, open, left, Set::denser_or_shorter)
}

// The densest set, where floats say which is denser: a mistake.
pub fn floats(draft: &Draft, open: u128, left: u128) -> Set
    ensures tasks { Among result.tasks «open» }
    ensures hours { Among result.bits left }
{
    best(draft, open, left, Set::denser_in_floats)
}

// Cuts the open tasks into what weighs most above the level of all and the rest, and goes on with one side until all fit.
#[tactic(auto, using(crate::proofs::Sets::and_among))]
fn cut_to<F: Fn(Set) -> u128>(draft: &Draft, open: u128, left: u128, side: F) -> Set
    requires { F.IsAlwaysCallable side }
    ensures tasks { Among result.tasks «open» }
    ensures hours { Among result.bits left }
{
    let mut all = weigh(draft.jobs.as_slice(), open, left);
    for _ in 0..MOST_JOBS {
        let level = all.level();
        let set = best(draft, all.tasks, left, |set, old| set.outweighs(old, level));
        if set.tasks == all.tasks {
            break;
        }
        all = weigh(draft.jobs.as_slice(), all.tasks & side(set), left);
    }
    all
}

// The next group by cuts, each time with what weighs most: this is right too.
pub fn cut(draft: &Draft, open: u128, left: u128) -> Set
    ensures tasks { Among result.tasks «open» }
    ensures hours { Among result.bits left }
{
    cut_to(draft, open, left, |set| set.tasks)
}

// By cuts, each time with the other side: a mistake.
pub fn other_side(draft: &Draft, open: u128, left: u128) -> Set
    ensures tasks { Among result.tasks «open» }
    ensures hours { Among result.bits left }
{
    cut_to(draft, open, left, |set| !set.tasks)
}

// The tasks that have an hour left.
fn still(jobs: &[Job], open: u128, left: u128) -> u128 {
    let mut tasks = open;
    for (j, job) in jobs.iter().enumerate() {
        if j < 128 && job.bits & left == 0 {
            tasks &= !(1 << j);
        }
    }
    tasks
}

// How the next group is found among the sets of the tasks that are left: by the step of the same name. By name, and not by a function that
// is handed over, since a call of one asks that it may be called, and `groups` asks nothing.
#[derive(Clone, Copy)]
pub enum Way {
    Densest,
    Fewest,
    Floats,
    Cut,
    OtherSide,
}

impl Way {
    // The next group among the tasks that are open, in the hours that are left.
    fn next(self, draft: &Draft, open: u128, left: u128) -> Set
        ensures tasks { Among result.tasks «open» }
        ensures hours { Among result.bits left }
    {
        match self {
            Way::Densest => densest(draft, open, left),
            Way::Fewest => fewest(draft, open, left),
            Way::Floats => floats(draft, open, left),
            Way::Cut => cut(draft, open, left),
            Way::OtherSide => other_side(draft, open, left),
        }
    }
}

// The groups of a night, in the order of finding.
pub fn groups(heap: Global, draft: &Draft, way: Way) -> Result<Vec<Set>, AllocError> {
    let mut out = Vec::new(heap);
    let mut left = ones(draft.hours);
    let mut open = ones(draft.jobs.len());
    for _ in 0..MOST_JOBS {
        if open == 0 {
            break;
        }
        let set = way.next(draft, open, left);
        out.push(set)?;
        left &= !set.bits;
        open = still(draft.jobs.as_slice(), open & !set.tasks, left);
    }
    Ok(out)
}

// The level of the first group that has the hour, 0 in an hour of none.
fn load(groups: &[Set], s: usize) -> Level {
    match groups.iter().find(|set| has(set.bits, s)) {
        Some(set) => set.level(),
        None => Level { units: 0, hours: 1 },
    }
}

// The loads of the hours that groups make.
pub fn loads(heap: Global, hours: usize, groups: &[Set]) -> Result<Vec<Level>, AllocError> {
    (0..hours).map(|s| load(groups, s)).collect(heap)
}

// Whether the loads are the same in every hour.
pub fn same_loads(a: &[Level], b: &[Level]) -> bool
    ensures long { result ≡ true → length a.now ≡ length b.now }
    ensures each { result ≡ true → (s : ℕ) → s < length a.now → Same (slice_index_or a.now s none) (slice_index_or b.now s none) }
{
    a.len() == b.len() && a.iter().zip(b.iter()).all(|(x, y)| x.same(*y))
}
