// Lines that are printed.
use fraction::Fraction;
use lines::{RefusedLine, UnevenLine, plan_text};
use std::test::Fail;

// Two hours; 6 units in hour 0 alone, and 2 in either: the loads are 6 and 2.
#[test]
fn night(rt: HostRuntime) -> Result<(), Fail> {
    let loads = [
        Fraction::whole(6).unwrap_or(Fraction::zero()),
        Fraction::whole(2).unwrap_or(Fraction::zero()),
    ];
    let mut amounts = [0; 192];
    amounts[0] = 6;
    amounts[97] = 2;
    let text = plan_text(rt.alloc(), &loads, &[1, 1], &amounts).map_err(|_| Fail::new(
        "a plan is not printed",
    ))?;
    assert_eq!(rt;
        text.as_str(),
        "hour 0 load 6\nhour 1 load 2\ntask 0 hour 0 amount 6\ntask 1 hour 1 amount 2\n"
    );
    Ok(())
}

#[test]
fn refusals(rt: HostRuntime) -> Result<(), Fail> {
    let line = RefusedLine {
        number: 4,
        place: 6,
    };
    assert_eq!(rt; line.to_string(rt.alloc())?.as_str(), "refused 4 at 6");
    let line = UnevenLine {
        task: 4,
        done: 1,
        less: 2,
    };
    assert_eq!(rt;
        line.to_string(rt.alloc())?.as_str(),
        "refused 9 at 4 hours 1 2"
    );
    Ok(())
}
