// Nights in numbers.
use night::night::Night;
use night::task::Task;
use sets::hours::Hours;
use std::alloc::Global;
use std::test::Fail;

// How many hours there are, and for each task its units and its hours, as binary digits with hour 0 last.
pub(crate) type Given = (usize, &'static [(u32, u128)]);

// 6 : 0, 2 : 0 1
pub(crate) const A: Given = (2, &[(6, 0b01), (2, 0b11)]);
// 6 : 0 1 2
pub(crate) const B: Given = (3, &[(6, 0b111)]);
// 4 : 0 1, 4 : 1 2
pub(crate) const C: Given = (3, &[(4, 0b011), (4, 0b110)]);
// 5 : 0 1, 1 : 1 2, 1 : 2
pub(crate) const D: Given = (3, &[(5, 0b011), (1, 0b110), (1, 0b100)]);
// 3 : 0 1, 3 : 1 2, 3 : 2 3, 1 : 0 1 2 3
pub(crate) const E: Given = (4, &[(3, 0b0011), (3, 0b0110), (3, 0b1100), (1, 0b1111)]);
// 1 : 0, 1 : 0, 4 : 0 1 2
pub(crate) const F: Given = (3, &[(1, 0b001), (1, 0b001), (4, 0b111)]);
// 4 : 0, 1 : 1 2
pub(crate) const G: Given = (3, &[(4, 0b001), (1, 0b110)]);

fn made(hours: usize, tasks: Vec<Task>) -> Result<Night, Fail> {
    Ok(Night::new(hours, tasks).ok_or("no night")?)
}

// The night of these numbers.
pub(crate) fn night_of(heap: Global, given: Given) -> Result<Night, Fail> {
    let tasks = given.1.iter().map(|(units, bits)| Task {
        units: *units,
        hours: Hours::from_bits(*bits),
    });
    made(given.0, tasks.collect(heap)?)
}

// 200 tasks of 1,000,000 units in one hour.
pub(crate) fn heavy(heap: Global) -> Result<Night, Fail> {
    let task = Task {
        units: 1_000_000,
        hours: Hours::only(0),
    };
    made(1, vec![in heap; task; 200]?)
}

// 96 hours and tasks. Task j needs 1000 - j units, in the hours up to j, so that each hour is a group of its own.
pub(crate) fn stairs(heap: Global) -> Result<Night, Fail> {
    let mut tasks = Vec::new(heap);
    for j in 0..96 {
        tasks.push(Task {
            units: 1000 - j,
            hours: Hours::below(j as usize + 1),
        })?;
    }
    made(96, tasks)
}

// 94,000,024 units in 47 hours, and 98,000,025 in all 96: the levels are 2,000,000 + 24/47 and 2,000,000 + 25/49.
pub(crate) fn near(heap: Global) -> Result<Night, Fail> {
    let mut tasks = Vec::new(heap);
    for j in 0..194 {
        let (hours, rest) = if j < 95 { (47, 24) } else { (96, 25) };
        let units = if j == 94 || j == 193 { rest } else { 1_000_000 };
        tasks.push(Task {
            units,
            hours: Hours::below(hours),
        })?;
    }
    made(96, tasks)
}
