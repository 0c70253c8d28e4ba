// Sheets in numbers.
use crate::given::{Given, night_of};
use sheet::check;
use sheet::refusal::Refusal;
use std::alloc::{AllocError, Global};
use std::process::Abort;
use std::test::Fail;

// The load of each hour, as numerator and denominator; the hours of each group, as binary digits; the group of each task, and its amounts.
pub(crate) type Numbers = (
    &'static [(u64, u8)],
    &'static [u8],
    &'static [(u8, &'static [u64])],
);

pub(crate) const SHEET_OF_A: Numbers = (&[(6, 1), (2, 1)], &[1, 2], &[(0, &[6]), (1, &[0, 2])]);

// The bytes of a sheet of a night of at most 8 hours.
pub(crate) fn bytes(heap: Global, sheet: Numbers) -> Result<Vec<u8>, AllocError> {
    let (loads, groups, rows) = sheet;
    let mut all = Vec::new(heap);
    for (num, den) in loads {
        all.extend_from_slice(&num.to_le_bytes())?;
        all.push(*den)?;
    }
    all.push(groups.len().min(255) as u8)?;
    all.extend_from_slice(groups)?;
    for (group, amounts) in rows {
        all.push(*group)?;
        for amount in *amounts {
            all.extend_from_slice(&amount.to_le_bytes())?;
        }
    }
    Ok(all)
}

// A sheet, by its name, for a night, and what its checker says.
pub(crate) fn gets(
    rt: &impl Abort,
    heap: Global,
    name: &str,
    given: Given,
    sheet: Numbers,
    verdict: Result<(), Refusal>,
) -> Result<(), Fail> {
    let night = night_of(heap, given)?;
    let all = bytes(heap, sheet)?;
    assert_eq!(rt; check(&night, all.as_slice()), verdict, "{}", name);
    Ok(())
}
