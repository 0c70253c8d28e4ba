// Every change of a single byte of a sheet.
//
// Changed sheets that still mean the even plan with its loads, and are accepted:
// - a group's bits from the hours on say nothing;
// - a group's other bits count only for the first of them: the first hour may be another with the same denominator;
// - a task's group may be another whose first hour has the same denominator.
// That makes 384 of A (191 for each of two groups, 1 for each of two tasks), 223 of C, 222 of D (191 and 31) and 222 of G (127 and 95).
use crate::given::{A, C, D, G, Given, night_of};
use crate::sheets::written::planned;
use night::night::Night;
use sheet::check;
use std::process::Abort;
use std::test::Fail;

// A byte that may be another: its place, which of its bits count, and the values of these with which the sheet is accepted, as binary digits.
type Free = (usize, u8, u8);

// A night, the bytes of its sheet that may be others, and how many changed sheets are accepted.
const CASES: [(Given, &[Free], usize); 4] = [
    (
        A,
        &[
            (19, 0b11, 0b1110),
            (20, 0b11, 0b1110),
            (21, 255, 0b11),
            (30, 255, 0b11),
        ],
        384,
    ),
    (C, &[(28, 0b111, 0b1111_1110)], 223),
    (
        D,
        &[(28, 0b111, 0b1110_1110), (29, 0b111, 0b0001_0000)],
        222,
    ),
    (
        G,
        &[(28, 0b111, 0b1010_1010), (29, 0b111, 0b0101_0100)],
        222,
    ),
];

// Whether the sheet is accepted with this byte at this place.
fn may_be(free: &[Free], at: usize, byte: u8) -> bool {
    free.iter().any(|(place, counts, values)| {
        let value = byte & *counts;
        at == *place && value < 8 && (*values >> value) & 1 == 1
    })
}

// How many other bytes at a place are accepted, if they are just those that may be.
fn accepted(rt: &impl Abort, night: &Night, sheet: &mut [u8], free: &[Free], at: usize) -> usize {
    let mut count = 0usize;
    if at < sheet.len() {
        let was = sheet[at];
        for byte in 0..=u8::MAX {
            sheet[at] = byte;
            let taken = check(night, sheet).is_ok();
            let may = byte == was || may_be(free, at, byte);
            assert_eq!(rt; taken, may, "{byte} at {at}");
            if taken && byte != was {
                count = count.saturating_add(1);
            }
        }
        sheet[at] = was;
    }
    count
}

#[test]
fn changed(rt: HostRuntime) -> Result<(), Fail> {
    for (given, free, total) in CASES {
        let night = night_of(rt.alloc(), given)?;
        let mut sheet = planned(rt.alloc(), &night)?;
        let mut count = 0usize;
        // by index, since the whole sheet is checked while one byte of it is another
        for at in 0..sheet.len() {
            count = count.saturating_add(accepted(&rt, &night, &mut sheet, free, at));
        }
        assert_eq!(rt; count, total);
    }
    Ok(())
}
