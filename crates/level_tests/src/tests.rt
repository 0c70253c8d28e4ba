use fraction::Fraction;
use level::short::Short;
use level::{length_needed, plan_night};
use night::night::Night;
use refusals::Numbered;
use std::process::Abort;
use std::test::Fail;

// a night's bytes, and its loads by hours
const NIGHTS: [(&[u8], &[(u64, u64)]); 11] = [
    // 6 : 0, 2 : 0 1
    (&[2, 2, 6, 0, 0, 0, 1, 2, 0, 0, 0, 3], &[(6, 1), (2, 1)]),
    // 6 : 0 1 2
    (&[3, 1, 6, 0, 0, 0, 7], &[(2, 1), (2, 1), (2, 1)]),
    // 4 : 0 1, 4 : 1 2
    (
        &[3, 2, 4, 0, 0, 0, 3, 4, 0, 0, 0, 6],
        &[(8, 3), (8, 3), (8, 3)],
    ),
    // 5 : 0 1, 1 : 1 2, 1 : 2
    (
        &[3, 3, 5, 0, 0, 0, 3, 1, 0, 0, 0, 6, 1, 0, 0, 0, 4],
        &[(5, 2), (5, 2), (2, 1)],
    ),
    // 3 : 0 1, 3 : 1 2, 3 : 2 3, 1 : 0 1 2 3
    (
        &[
            4, 4, 3, 0, 0, 0, 3, 3, 0, 0, 0, 6, 3, 0, 0, 0, 12, 1, 0, 0, 0, 15,
        ],
        &[(5, 2), (5, 2), (5, 2), (5, 2)],
    ),
    // 1 : 0, 1 : 0, 4 : 0 1 2
    (
        &[3, 3, 1, 0, 0, 0, 1, 1, 0, 0, 0, 1, 4, 0, 0, 0, 7],
        &[(2, 1), (2, 1), (2, 1)],
    ),
    // 4 : 0, 1 : 1 2
    (
        &[3, 2, 4, 0, 0, 0, 1, 1, 0, 0, 0, 6],
        &[(4, 1), (1, 2), (1, 2)],
    ),
    // no task
    (&[2, 0], &[(0, 1), (0, 1)]),
    // one hour
    (&[1, 1, 5, 0, 0, 0, 1], &[(5, 1)]),
    // no units
    (&[2, 1, 0, 0, 0, 0, 3], &[(0, 1), (0, 1)]),
    // an hour that no task may use
    (&[2, 1, 3, 0, 0, 0, 2], &[(0, 1), (3, 1)]),
];

// Whether the first loads are these. (`plan_tests` has the same few lines: a crate for them would be longer than they are.)
fn agree(loads: &[Fraction], wanted: &[(u64, u64)]) -> bool {
    wanted.len() <= loads.len()
        && loads.iter().zip(wanted.iter()).all(|(load, (num, den))| load.num() == *num
            && load.den() == *den)
}

// Plans a night, and compares its loads.
fn has_loads(rt: &impl Abort, night: &Night, wanted: &[(u64, u64)]) -> Result<(), Fail> {
    let mut plan = [7; 400];
    let mut work = [7; 400];
    let levels = plan_night(night, &mut plan, &mut work)?;
    assert!(rt; agree(&levels.loads, wanted));
    Ok(())
}

#[test]
fn loads(rt: HostRuntime) -> Result<(), Fail> {
    for (bytes, wanted) in NIGHTS {
        has_loads(&rt, &night::read(rt.alloc(), bytes)?, wanted)?;
    }
    Ok(())
}

// 5 : 0 1, 1 : 1 2, 1 : 2, in two groups with three flows; the plan behind its rows is as it was
#[test]
fn amounts(rt: HostRuntime) -> Result<(), Fail> {
    let night = night::read(
        rt.alloc(),
        &[3, 3, 5, 0, 0, 0, 3, 1, 0, 0, 0, 6, 1, 0, 0, 0, 4],
    )?;
    let mut plan = [7; 300];
    let mut work = [7; 300];
    let levels = plan_night(&night, &mut plan, &mut work)?;
    assert_eq!(rt; length_needed(&night), 288);
    assert!(rt; levels.count == 2 && levels.flows == 3 && levels.longest == 2);
    assert!(rt; levels.of[0] == 0 && levels.of[1] == 1 && levels.of[2] == 1);
    assert!(rt;
        levels.groups[0].contains(0) && levels.groups[0].contains(1) && levels.groups[1].contains(2)
    );
    assert!(rt; plan[0] == 5 && plan[1] == 5 && plan[2] == 0);
    assert!(rt; plan[97] == 0 && plan[98] == 1 && plan[193] == 0 && plan[194] == 1);
    assert!(rt; plan[287] == 0 && plan[288] == 7);
    Ok(())
}

#[test]
fn refused(rt: HostRuntime) -> Result<(), Fail> {
    let night = night::read(rt.alloc(), &[1, 1, 5, 0, 0, 0, 1])?;
    let mut long = [7; 96];
    let mut short = [7; 95];
    let plan = plan_night(&night, &mut short, &mut long);
    assert!(rt; matches(plan, Short::Plan));
    let work = plan_night(&night, &mut long, &mut short);
    assert!(rt; matches(work, Short::Work));
    assert!(rt; long[0] == 7 && short[0] == 7);
    assert!(rt;
        Short::Plan.number() == 5
            && Short::Plan.place() == 0
            && Short::Work.number() == 5
            && Short::Work.place() == 1
    );
    Ok(())
}

fn matches(r: Result<level::levels::Levels, Short>, e: Short) -> bool {
    r.err() == Some(e)
}
