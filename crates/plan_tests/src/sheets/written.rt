// Sheets that are written.
use crate::given::{A, B, C, D, E, F, G, Given, heavy, near, night_of, stairs};
use level::length_needed;
use night::night::Night;
use sheet::check;
use sheet_writer::planned::{plan_sheet, sheet_room};
use std::alloc::Global;
use std::process::Abort;
use std::test::Fail;

// The sheet of a night's plan.
pub(crate) fn planned(heap: Global, night: &Night) -> Result<Vec<u8>, Fail> {
    let cells = length_needed(night);
    let mut plan = vec![in heap; 0u64; cells]?;
    let mut work = vec![in heap; 0u64; cells]?;
    let mut sheet = vec![in heap; 0u8; sheet_room(night)]?;
    let done = plan_sheet(night, &mut plan, &mut work, &mut sheet)?;
    sheet.truncate(done.length);
    Ok(sheet)
}

fn is_accepted(rt: &impl Abort, heap: Global, night: &Night) -> Result<(), Fail> {
    let sheet = planned(heap, night)?;
    assert_eq!(rt; check(night, sheet.as_slice()), Ok(()));
    Ok(())
}

const NIGHTS: [Given; 7] = [A, B, C, D, E, F, G];

#[test]
fn plans(rt: HostRuntime) -> Result<(), Fail> {
    for given in NIGHTS {
        is_accepted(&rt, rt.alloc(), &night_of(rt.alloc(), given)?)?;
    }
    Ok(())
}

#[test]
fn large_plans(rt: HostRuntime) -> Result<(), Fail> {
    is_accepted(&rt, rt.alloc(), &heavy(rt.alloc())?)?;
    is_accepted(&rt, rt.alloc(), &stairs(rt.alloc())?)?;
    is_accepted(&rt, rt.alloc(), &near(rt.alloc())?)
}
