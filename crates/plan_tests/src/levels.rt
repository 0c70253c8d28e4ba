// Nights with known loads.
use crate::given::{heavy, near, night_of, stairs};
use fraction::Fraction;
use level::levels::Levels;
use level::{length_needed, plan_night};
use night::night::Night;
use std::alloc::Global;
use std::num::nearest_u64_to_f32;
use std::test::Fail;

// Whether the first loads are these. (`level_tests` has the same few lines: a crate for them would be longer than they are.)
fn agree(loads: &[Fraction], wanted: &[(u64, u64)]) -> bool {
    wanted.len() <= loads.len()
        && loads.iter().zip(wanted.iter()).all(|(load, (num, den))| load.num() == *num
            && load.den() == *den)
}

// The levels of a night.
fn levels_of(heap: Global, night: &Night) -> Result<Levels, Fail> {
    let cells = length_needed(night);
    let mut plan = vec![in heap; 7u64; cells]?;
    let mut work = vec![in heap; 7u64; cells]?;
    Ok(plan_night(night, &mut plan, &mut work)?)
}

// Two tasks with the same hours.
#[test]
fn same_hours(rt: HostRuntime) -> Result<(), Fail> {
    let night = night_of(rt.alloc(), (3, &[(3, 0b011), (4, 0b011)]))?;
    let levels = levels_of(rt.alloc(), &night)?;
    assert!(rt; agree(&levels.loads, &[(7, 2), (7, 2), (0, 1)]));
    Ok(())
}

#[test]
fn most_units(rt: HostRuntime) -> Result<(), Fail> {
    let levels = levels_of(rt.alloc(), &heavy(rt.alloc())?)?;
    assert!(rt; levels.count == 1 && agree(&levels.loads, &[(200_000_000, 1)]));
    Ok(())
}

#[test]
fn most_groups(rt: HostRuntime) -> Result<(), Fail> {
    let levels = levels_of(rt.alloc(), &stairs(rt.alloc())?)?;
    assert!(rt; levels.count == 96 && levels.flows == 191);
    for (s, load) in levels.loads.iter().enumerate() {
        assert_eq!(rt; (load.num(), load.den()), (1000 - s as u64, 1));
    }
    Ok(())
}

// The nearest two levels of a night are 1/2303 apart, since their denominators add up to at most 96, and at most 2,083,333. As f32 they are
// one; an f64 tells any two levels apart, but not within a part in 1e9.
#[test]
fn nearest_levels(rt: HostRuntime) -> Result<(), Fail> {
    let levels = levels_of(rt.alloc(), &near(rt.alloc())?)?;
    assert!(rt; levels.count == 2);
    for (s, load) in levels.loads.iter().enumerate() {
        let wanted = if s < 47 {
            (94_000_024, 47)
        } else {
            (98_000_025, 49)
        };
        assert_eq!(rt; (load.num(), load.den()), wanted);
    }
    let dense = nearest_u64_to_f32(94_000_024) / 47.0;
    assert!(rt; dense == nearest_u64_to_f32(98_000_025) / 49.0);
    Ok(())
}
