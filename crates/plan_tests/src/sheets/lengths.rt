// Bytes that are missing or too many.
use crate::given::{A, night_of};
use crate::sheets::numbers::{SHEET_OF_A, bytes};
use sheet::check;
use sheet::refusal::Refusal;
use std::test::Fail;

#[test]
fn cut_off(rt: HostRuntime) -> Result<(), Fail> {
    let night = night_of(rt.alloc(), A)?;
    let mut sheet = bytes(rt.alloc(), SHEET_OF_A)?;
    sheet.extend_from_slice(&[0, 9])?;
    for end in 0..50 {
        let cut = sheet.as_slice().get(0..end);
        let verdict = match end {
            47 => Ok(()),
            0..=46 => Err(Refusal::Length(end)),
            _ => Err(Refusal::Length(47)),
        };
        if let Some(part) = cut {
            assert_eq!(rt; check(&night, part), verdict, "{end} bytes");
        }
    }
    Ok(())
}

// How many groups a sheet of 47 zeros says that it has: a group takes a byte, and with two the length is right.
const GROUPS: [(u8, Refusal); 5] = [
    (0, Refusal::Length(45)),
    (1, Refusal::Length(46)),
    (2, Refusal::Load(0)),
    (3, Refusal::Length(47)),
    (255, Refusal::Length(47)),
];

fn zeros(groups: u8) -> [u8; 47] {
    let mut sheet = [0; 47];
    sheet[18] = groups;
    sheet
}

#[test]
fn groups(rt: HostRuntime) -> Result<(), Fail> {
    let night = night_of(rt.alloc(), A)?;
    for (count, refusal) in GROUPS {
        assert_eq!(rt;
            check(&night, &zeros(count)),
            Err(refusal),
            "{count} groups"
        );
    }
    Ok(())
}
