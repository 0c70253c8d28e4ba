// Bytes that are nights and bytes that are none.
use night::{read, write};
use refusals::Numbered;
use std::alloc::{AllocError, Global};
use std::test::Fail;

// Bytes, and the number and place of their refusal, as people are told them; number 0 where they are a night.
const CASES: [(&[u8], usize, usize); 49] = [
    // bytes are missing, whatever else is wrong
    (&[], 1, 0),
    (&[1], 1, 1),
    (&[0], 1, 1),
    (&[1, 1], 1, 2),
    (&[0, 1], 1, 2),
    (&[97, 1], 1, 2),
    (&[1, 201], 1, 2),
    (&[0, 201], 1, 2),
    (&[0, 1, 0, 0, 0], 1, 5),
    (&[1, 1, 0x41, 0x42, 0x0f, 0], 1, 6),
    (&[9, 1, 0, 0, 0, 0, 0], 1, 7),
    (&[1, 2, 0, 0, 0, 0, 0, 0, 0, 0, 0], 1, 11),
    // hours
    (&[0, 0], 2, 0),
    (&[0, 0, 9], 2, 0),
    (&[0, 1, 0x41, 0x42, 0x0f, 0], 2, 0),
    (&[1, 0], 0, 0),
    (&[95, 0], 0, 0),
    (&[96, 0], 0, 0),
    (&[97, 0], 2, 0),
    (&[255, 0], 2, 0),
    // units
    (&[1, 1, 0, 0, 0, 0, 1], 0, 0),
    (&[1, 1, 0x40, 0x42, 0x0f, 0, 1], 0, 0),
    (&[1, 1, 0x41, 0x42, 0x0f, 0, 1], 3, 2),
    (&[1, 1, 0, 0, 0, 1, 1], 3, 2),
    (&[1, 1, 255, 255, 255, 255, 1], 3, 2),
    (&[1, 1, 0x41, 0x42, 0x0f, 0, 0], 3, 2),
    (&[1, 1, 0x41, 0x42, 0x0f, 0, 1, 9], 3, 2),
    (&[1, 2, 0, 0, 0, 0, 1, 0x41, 0x42, 0x0f, 0, 1], 3, 7),
    (&[1, 2, 0, 0, 0, 1, 1, 0, 0, 0, 1, 1], 3, 2),
    (&[1, 2, 0, 0, 0, 1, 1, 0, 0, 0, 0, 0], 3, 2),
    // rows
    (&[1, 1, 0, 0, 0, 0, 0], 4, 6),
    (&[1, 1, 0, 0, 0, 0, 2], 4, 6),
    (&[1, 1, 0, 0, 0, 0, 3, 9], 4, 6),
    (&[1, 1, 0, 0, 0, 0, 0, 9], 4, 6),
    (&[8, 1, 0, 0, 0, 0, 0x80], 0, 0),
    (&[9, 1, 0, 0, 0, 0, 0, 1], 0, 0),
    (&[9, 1, 0, 0, 0, 0, 0, 2], 4, 6),
    (&[9, 1, 0, 0, 0, 0, 0, 3], 4, 6),
    (&[1, 2, 0, 0, 0, 0, 0, 0x41, 0x42, 0x0f, 0, 1], 4, 6),
    (&[1, 2, 0, 0, 0, 0, 0, 0, 0, 0, 0, 2], 4, 6),
    (&[1, 2, 0, 0, 0, 0, 1, 0, 0, 0, 0, 2], 4, 11),
    (&[1, 2, 0, 0, 0, 0, 1, 0, 0, 0, 0, 0, 9], 4, 11),
    (
        &[95, 1, 0, 0, 0, 0, 0, 0, 0, 0, 0, 0, 0, 0, 0, 0, 0, 0x40],
        0,
        0,
    ),
    (
        &[95, 1, 0, 0, 0, 0, 0, 0, 0, 0, 0, 0, 0, 0, 0, 0, 0, 0x80],
        4,
        6,
    ),
    (
        &[96, 1, 0, 0, 0, 0, 0, 0, 0, 0, 0, 0, 0, 0, 0, 0, 0, 0x80],
        0,
        0,
    ),
    // bytes that go on
    (&[1, 0, 9], 1, 2),
    (&[1, 0, 9, 9], 1, 2),
    (&[1, 1, 0, 0, 0, 0, 1, 9], 1, 7),
    (&[1, 2, 0, 0, 0, 0, 1, 0, 0, 0, 0, 1, 9], 1, 12),
];

// Hours and the last byte of one task's row, whose other bytes are 0; number and place.
const LAST: [(u8, u8, usize, usize); 4] = [
    (96, 0x00, 4, 6),
    (97, 0x01, 2, 0),
    // a bad row behind bad hours
    (97, 0x00, 2, 0),
    (97, 0x02, 2, 0),
];

// Hours, how many tasks, the bytes of each, and the bytes behind them; number and place.
const ALIKE: [(u8, u8, [u8; 5], &[u8], usize, usize); 7] = [
    (1, 200, [0x40, 0x42, 0x0f, 0, 1], &[], 0, 0),
    (1, 200, [7, 0, 0, 0, 1], &[9], 1, 1002),
    (1, 255, [7, 0, 0, 0, 1], &[], 2, 1),
    // with no hours; with units, rows and bytes that are too many
    (0, 201, [7, 0, 0, 0, 1], &[], 2, 0),
    (1, 201, [0x41, 0x42, 0x0f, 0, 1], &[], 2, 1),
    (1, 201, [7, 0, 0, 0, 0], &[], 2, 1),
    (1, 201, [7, 0, 0, 0, 1], &[9], 2, 1),
];

// Whether the bytes get this number and place, and are written again where they are a night.
fn gets(heap: Global, bytes: &[u8], number: usize, place: usize) -> Result<bool, AllocError> {
    match read(heap, bytes) {
        Ok(night) => {
            let again = write(heap, &night)?;
            Ok(number == 0 && again.as_slice() == bytes)
        }
        Err(refusal) => Ok(refusal.number() == number && refusal.place() == place),
    }
}

// The bytes of so many equal tasks, behind the two of a night of so many hours.
fn alike(heap: Global, hours: u8, count: u8, task: &[u8]) -> Result<Vec<u8>, AllocError> {
    let mut bytes = vec![in heap; hours, count]?;
    for _ in 0..count {
        bytes.extend_from_slice(task)?;
    }
    Ok(bytes)
}

#[test]
fn table(rt: HostRuntime) -> Result<(), Fail> {
    for (bytes, number, place) in CASES {
        assert!(rt; gets(rt.alloc(), bytes, number, place)?, "{bytes:?}");
    }
    Ok(())
}

#[test]
fn last_hours(rt: HostRuntime) -> Result<(), Fail> {
    for (hours, last, number, place) in LAST {
        let mut bytes = vec![in rt.alloc(); hours, 1]?;
        for _ in 0..hours.div_ceil(8).saturating_add(3) {
            bytes.push(0)?;
        }
        bytes.push(last)?;
        assert!(rt;
            gets(rt.alloc(), bytes.as_slice(), number, place)?,
            "{last} of {hours}"
        );
    }
    Ok(())
}

#[test]
fn equal_tasks(rt: HostRuntime) -> Result<(), Fail> {
    for (hours, count, task, more, number, place) in ALIKE {
        let mut bytes = alike(rt.alloc(), hours, count, &task)?;
        bytes.extend_from_slice(more)?;
        assert!(rt;
            gets(rt.alloc(), bytes.as_slice(), number, place)?,
            "{count} of {task:?}"
        );
    }
    Ok(())
}

#[test]
fn many_tasks(rt: HostRuntime) -> Result<(), Fail> {
    let most = alike(rt.alloc(), 1, 200, &[7, 0, 0, 0, 1])?;
    assert!(rt; gets(rt.alloc(), most.as_slice(), 0, 0)?);
    let more = alike(rt.alloc(), 1, 201, &[7, 0, 0, 0, 1])?;
    assert!(rt; gets(rt.alloc(), more.as_slice(), 2, 1)?);
    Ok(())
}
