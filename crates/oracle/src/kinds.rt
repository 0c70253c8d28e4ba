// The kinds of random nights.
use crate::bits::ones;
use crate::draft::{Draft, Job};
use crate::draw::Draw;
use crate::edits::MOST_UNITS;
use std::alloc::{AllocError, Global};

// The hours in which a task may be done.
#[derive(Clone, Copy)]
pub enum Shape {
    // each hour alone, so often of a hundred
    Scattered(u64),
    // neighbours, at most so many
    Window(u64),
    // two rows of neighbours, each of at most so many
    Pieces(u64),
    // one of the windows of so many hours that follow one another
    Same(u64),
}

// Both ends of a range of numbers, which are in it: the library's ranges are not Copy.
type Ends = (u64, u64);

// A night's hours, tasks and units lie within these ends.
#[derive(Clone, Copy)]
pub struct Kind {
    pub hours: Ends,
    pub tasks: Ends,
    pub units: Ends,
    pub shape: Shape,
}

const MAX: u64 = MOST_UNITS as u64;

// The hours, tasks, units and shape of each kind.
const KINDS: [(Ends, Ends, Ends, Shape); 20] = [
    // few tasks: small numbers, so that levels meet
    ((1, 4), (1, 4), (0, 4), Shape::Scattered(60)),
    ((2, 6), (2, 7), (0, 6), Shape::Scattered(40)),
    ((3, 9), (3, 9), (1, 12), Shape::Window(4)),
    ((4, 12), (3, 9), (1, 30), Shape::Pieces(3)),
    ((6, 24), (4, 10), (0, 99), Shape::Same(3)),
    ((2, 8), (2, 8), (0, 1), Shape::Window(3)),
    // few tasks: huge units, and levels that lie near one another
    ((20, 96), (3, 9), (0, MAX), Shape::Window(40)),
    ((5, 96), (4, 9), (MAX - 2, MAX), Shape::Pieces(20)),
    ((3, 30), (4, 9), (MAX, MAX), Shape::Scattered(30)),
    // the edges: one hour, no task, no units
    ((1, 1), (0, 9), (0, MAX), Shape::Window(1)),
    ((1, 96), (0, 0), (0, 0), Shape::Window(1)),
    ((1, 20), (1, 8), (0, 0), Shape::Scattered(30)),
    // many tasks: dense, thin, windows, pieces, equal windows, many groups, near levels, 96 hours
    ((24, 48), (100, 200), (0, MAX), Shape::Scattered(70)),
    ((24, 96), (50, 200), (0, 50), Shape::Scattered(4)),
    ((24, 96), (60, 200), (1, 200), Shape::Window(8)),
    ((24, 96), (60, 200), (1, MAX), Shape::Pieces(6)),
    ((24, 96), (60, 200), (0, 9), Shape::Same(4)),
    ((60, 96), (60, 120), (0, MAX), Shape::Window(2)),
    ((40, 96), (100, 200), (MAX - 10, MAX), Shape::Window(5)),
    ((96, 96), (200, 200), (0, MAX), Shape::Window(96)),
];

// The kind of night n: all kinds in turn.
pub fn nth(n: u64) -> Kind {
    let (hours, tasks, units, shape) = KINDS[(n % 20) as usize];
    Kind {
        hours,
        tasks,
        units,
        shape,
    }
}

fn window(draw: &mut Draw, hours: usize, most: u64) -> u128 {
    let from = draw.index(hours).min(127);
    let long = 1 + draw.below(most).min(127) as usize;
    (ones(long) << from) & ones(hours)
}

fn scattered(draw: &mut Draw, hours: usize, often: u64) -> u128 {
    let mut bits: u128 = 0;
    for s in 0..hours.min(128) {
        if draw.below(100) < often {
            bits |= 1 << s;
        }
    }
    bits
}

fn same(draw: &mut Draw, hours: usize, long: u64) -> u128 {
    let step = long.min(96).max(1) as usize;
    let from = draw.index(hours) / step * step;
    (ones(step) << from.min(127)) & ones(hours)
}

fn shaped(draw: &mut Draw, hours: usize, shape: Shape) -> u128 {
    let bits = match shape {
        Shape::Scattered(often) => scattered(draw, hours, often),
        Shape::Window(most) => window(draw, hours, most),
        Shape::Pieces(most) => window(draw, hours, most) | window(draw, hours, most),
        Shape::Same(long) => same(draw, hours, long),
    };
    if bits != 0 {
        return bits;
    }
    1 << draw.index(hours).min(127)
}

fn within(draw: &mut Draw, (low, high): Ends) -> u64 {
    draw.between(&(low..=high))
}

// A night of the kind.
pub fn night(heap: Global, draw: &mut Draw, kind: Kind) -> Result<Draft, AllocError> {
    let hours = within(draw, kind.hours).min(96) as usize;
    let mut jobs = Vec::new(heap);
    for _ in 0..within(draw, kind.tasks) {
        let units = within(draw, kind.units).min(MAX) as u32;
        let bits = shaped(draw, hours, kind.shape);
        jobs.push(Job { units, bits })?;
    }
    Ok(Draft { hours, jobs })
}
