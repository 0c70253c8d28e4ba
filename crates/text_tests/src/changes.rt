// Rows of changes on a small night.
use change::evening::prepare;
use change::kinds::Change;
use change::refusal::Refusal;
use change::row::apply;
use night::night::Night;
use night::task::Task;
use sets::hours::Hours;
use std::alloc::Global;
use std::test::Fail;

fn task(units: u32, hours: Hours) -> Task {
    Task { units, hours }
}

// 3 hours, 5 units in hours 0 and 1, and 1 unit in hour 2, as many times as asked.
fn three_hours(heap: Global, tasks: usize) -> Result<Night, Fail> {
    let mut all = vec![in heap; task(1, Hours::only(2)); tasks]?;
    if let Some(first) = all.first_mut() {
        *first = task(5, Hours::below(2));
    }
    Ok(Night::new(3, all).ok_or("no night")?)
}

// The units of each task after the row, or the place of its refusal behind a task of 999: a list in either case, which the
// values of the tests are.
fn outcome(heap: Global, tasks: usize, row: &[Change]) -> Result<Vec<u32>, Fail> {
    let night = three_hours(heap, tasks)?;
    let mut units = Vec::new(heap);
    match apply(heap, &night, row) {
        Ok(after) => {
            for t in after.tasks() {
                units.push(t.units)?;
            }
        }
        Err(Refusal::Impossible(i)) => {
            units.push(999)?;
            units.push(i.min(1000) as u32)?;
        }
        Err(Refusal::NoMemory) => return Err(Fail::new("no memory")),
    }
    Ok(units)
}

#[test]
fn rows_taken(rt: HostRuntime) -> Result<(), Fail> {
    let heap = rt.alloc();
    let comes = Change::Comes(task(7, Hours::only(1)));
    assert_eq!(rt;
        outcome(heap, 3, &[comes])?.as_slice(),
        [5, 1, 1, 7].as_slice()
    );
    assert_eq!(rt;
        outcome(heap, 3, &[Change::Goes(0), Change::More(0, 4)])?.as_slice(),
        [5, 1].as_slice()
    );
    assert_eq!(rt;
        outcome(heap, 1, &[Change::More(0, 999_995)])?.as_slice(),
        [1_000_000].as_slice()
    );
    assert_eq!(rt; outcome(heap, 200, &[Change::Goes(199), comes])?.len(), 200);
    assert_eq!(rt;
        outcome(heap, 1, &[Change::Goes(0)])?.as_slice(),
        [].as_slice()
    );
    Ok(())
}

#[test]
fn rows_refused(rt: HostRuntime) -> Result<(), Fail> {
    let heap = rt.alloc();
    let comes = Change::Comes(task(7, Hours::only(1)));
    let late = Change::Comes(task(7, Hours::only(3)));
    let never = Change::Comes(task(7, Hours::none()));
    assert_eq!(rt;
        outcome(heap, 200, &[comes])?.as_slice(),
        [999, 0].as_slice()
    );
    assert_eq!(rt;
        outcome(heap, 3, &[comes, late])?.as_slice(),
        [999, 1].as_slice()
    );
    assert_eq!(rt;
        outcome(heap, 3, &[comes, comes, never])?.as_slice(),
        [999, 2].as_slice()
    );
    assert_eq!(rt;
        outcome(heap, 1, &[Change::Goes(0), Change::Goes(0)])?.as_slice(),
        [999, 1].as_slice()
    );
    assert_eq!(rt;
        outcome(heap, 1, &[Change::More(0, 999_996)])?.as_slice(),
        [999, 0].as_slice()
    );
    assert_eq!(rt;
        outcome(heap, 1, &[Change::More(1, 1)])?.as_slice(),
        [999, 0].as_slice()
    );
    Ok(())
}

// The loads of the three hours after the row, as numerators over denominators, or nothing where it is refused.
fn loads(heap: Global, row: &[Change]) -> Result<Vec<(u64, u64)>, Fail> {
    let night = three_hours(heap, 3)?;
    let mut all = Vec::new(heap);
    if let Ok(evening) = prepare(heap, &night, row) {
        for load in evening.planned.levels.loads.iter().take(3) {
            all.push((load.num(), load.den()))?;
        }
    }
    Ok(all)
}

#[test]
fn gone_and_back(rt: HostRuntime) -> Result<(), Fail> {
    let heap = rt.alloc();
    let back = Change::Comes(task(5, Hours::below(2)));
    assert_eq!(rt;
        loads(heap, &[])?.as_slice(),
        [(5, 2), (5, 2), (2, 1)].as_slice()
    );
    assert_eq!(rt;
        loads(heap, &[Change::Goes(0)])?.as_slice(),
        [(0, 1), (0, 1), (2, 1)].as_slice()
    );
    assert_eq!(rt;
        loads(heap, &[Change::Goes(0), back])?.as_slice(),
        [(5, 2), (5, 2), (2, 1)].as_slice()
    );
    Ok(())
}

// Two tasks that go, one that comes, and more units for it.
#[test]
fn gone_and_late(rt: HostRuntime) -> Result<(), Fail> {
    let heap = rt.alloc();
    let late = Change::Comes(task(1, Hours::below(3).remove(0)));
    let row = [Change::Goes(1), Change::Goes(1), late, Change::More(1, 2)];
    assert_eq!(rt;
        loads(heap, &row)?.as_slice(),
        [(8, 3), (8, 3), (8, 3)].as_slice()
    );
    Ok(())
}
