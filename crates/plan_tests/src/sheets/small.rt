// The sheet of a small night, and what it is with other bytes.
use crate::given::{A, night_of};
use fraction::Fraction;
use night::night::Night;
use sets::hours::Hours;
use sheet::check;
use sheet::refusal::Refusal;
use sheet_writer::refusal::Unwritten;
use sheet_writer::{sheet_len, write};
use std::alloc::Global;
use std::test::Fail;

// The sheet of a night with two hours: 6 units in hour 0, and 2 in hours 0 and 1.
const SHEET: [u8; 47] = [
    6, 0, 0, 0, 0, 0, 0, 0, 1, // the load of hour 0
    2, 0, 0, 0, 0, 0, 0, 0, 1, // the load of hour 1
    2, 1, 2, // two groups, an hour each
    0, 6, 0, 0, 0, 0, 0, 0, 0, // the first task
    1, 0, 0, 0, 0, 0, 0, 0, 0, 2, 0, 0, 0, 0, 0, 0, 0, // the second task
];

// Bytes of that sheet that are others, and what is wrong then.
const CASES: [([(usize, u8); 4], Refusal); 12] = [
    ([(0, 7), (0, 7), (0, 7), (0, 7)], Refusal::Load(0)),
    ([(8, 0), (8, 0), (8, 0), (8, 0)], Refusal::Load(0)),
    ([(8, 2), (8, 2), (8, 2), (8, 2)], Refusal::Task(0)),
    ([(17, 0), (17, 0), (17, 0), (17, 0)], Refusal::Load(1)),
    // a group more takes a byte more
    ([(18, 3), (18, 3), (18, 3), (18, 3)], Refusal::Length(47)),
    ([(18, 1), (18, 1), (18, 1), (18, 1)], Refusal::Length(46)),
    // a group that is missing or has no hour: its amounts count for nothing
    ([(30, 2), (30, 2), (30, 2), (30, 2)], Refusal::Load(1)),
    ([(30, 2), (39, 0), (9, 0), (9, 0)], Refusal::Task(1)),
    ([(20, 4), (39, 0), (9, 0), (9, 0)], Refusal::Task(1)),
    // a task with a unit too many
    ([(31, 1), (0, 7), (0, 7), (0, 7)], Refusal::Task(1)),
    // a task that is done where more lies
    ([(31, 2), (39, 0), (0, 8), (9, 0)], Refusal::Uneven(1, 0, 1)),
    // amounts whose sum would wrap around to the load
    ([(29, 128), (38, 128), (0, 6), (0, 6)], Refusal::Load(0)),
];

// The sheet with some bytes that are others.
fn edited(edits: [(usize, u8); 4]) -> [u8; 47] {
    let mut sheet = SHEET;
    for (at, byte) in edits {
        if at < 47 {
            sheet[at] = byte;
        }
    }
    sheet
}

#[test]
fn table(rt: HostRuntime) -> Result<(), Fail> {
    let night = night_of(rt.alloc(), A)?;
    for (edits, wrong) in CASES {
        assert_eq!(rt; check(&night, &edited(edits)), Err(wrong), "{edits:?}");
    }
    Ok(())
}

#[test]
fn right(rt: HostRuntime) -> Result<(), Fail> {
    let night = night_of(rt.alloc(), A)?;
    assert_eq!(rt; check(&night, &SHEET), Ok(()));
    // bits from the hours on say nothing
    assert_eq!(rt;
        check(
            &night,
            &edited([(20, 254), (20, 254), (20, 254), (20, 254)]),
        ),
        Ok(())
    );
    assert_eq!(rt; check(&night, &SHEET[0..46]), Err(Refusal::Length(46)));
    assert_eq!(rt; check(&night, &SHEET[0..18]), Err(Refusal::Length(18)));
    assert_eq!(rt; check(&night, &[]), Err(Refusal::Length(0)));
    Ok(())
}

// The plan of that sheet, written into so many bytes.
fn written(night: &Night, sheet: &mut [u8]) -> Result<usize, Unwritten> {
    let mut loads = [Fraction::zero(); 96];
    loads[0] = Fraction::reduced(6, 1).unwrap_or(Fraction::zero());
    loads[1] = Fraction::reduced(2, 1).unwrap_or(Fraction::zero());
    let mut groups = [Hours::none(); 96];
    groups[0] = Hours::only(0);
    groups[1] = Hours::only(1);
    let mut of = [0; 200];
    of[1] = 1;
    let mut plan = [0; 192];
    plan[0] = 6;
    plan[97] = 2;
    write(night, &loads, &groups, 2, &of, &plan, sheet)
}

#[test]
fn writes(rt: HostRuntime) -> Result<(), Fail> {
    let night = night_of(rt.alloc(), A)?;
    assert_eq!(rt; sheet_len(&night, 2), 47);
    let mut sheet = [9; 50];
    assert_eq!(rt; written(&night, &mut sheet), Ok(47));
    assert_eq!(rt; &sheet[0..47], &SHEET[0..47]);
    assert_eq!(rt; sheet[47], 9);
    let mut short = [9; 46];
    assert_eq!(rt; written(&night, &mut short), Err(Unwritten::ShortSheet));
    assert_eq!(rt; short, [9; 46]);
    Ok(())
}
