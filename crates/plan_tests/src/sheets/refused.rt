// Sheets whose numbers are wrong.
use crate::given::{A, B, C, Given};
use crate::sheets::numbers::{Numbers, gets};
use sheet::refusal::Refusal;
use std::test::Fail;

const HALF: u64 = 1 << 63;

// a night of two hours with nothing in the first
const LATE: Given = (2, &[(3, 0b10)]);

// a task that needs nothing
const IDLE: Given = (1, &[(0, 0b1)]);

const CASES: [(&str, Given, Numbers, Refusal); 29] = [
    // loads
    (
        "a load too large",
        A,
        (&[(7, 1), (2, 1)], &[1, 2], &[(0, &[6]), (1, &[0, 2])]),
        Refusal::Load(0),
    ),
    (
        "a denominator of 0 over amounts",
        A,
        (&[(6, 0), (2, 1)], &[1, 2], &[(0, &[6]), (1, &[0, 2])]),
        Refusal::Load(0),
    ),
    (
        "a denominator of 0 over amounts of a later hour",
        A,
        (&[(6, 1), (2, 0)], &[1, 2], &[(0, &[6]), (1, &[0, 2])]),
        Refusal::Load(1),
    ),
    (
        "a denominator of 0 over nothing",
        LATE,
        (&[(0, 0), (3, 1)], &[2], &[(0, &[3])]),
        Refusal::Load(0),
    ),
    (
        "97 for 96",
        B,
        (
            &[(192, 96), (192, 97), (192, 96)],
            &[7],
            &[(0, &[192, 192, 192])],
        ),
        Refusal::Load(1),
    ),
    (
        "254 for 255",
        B,
        (
            &[(510, 255), (510, 255), (510, 254)],
            &[7],
            &[(0, &[510, 510, 510])],
        ),
        Refusal::Load(2),
    ),
    (
        "a sum that would wrap to the load",
        A,
        (
            &[(6, 1), (2, 1)],
            &[1, 2],
            &[(0, &[HALF + 6]), (1, &[HALF, 2])],
        ),
        Refusal::Load(0),
    ),
    (
        "a sum of halves that would wrap to the load",
        A,
        (
            &[(7, 1), (2, 2)],
            &[1, 2],
            &[(0, &[HALF + 6]), (1, &[2, 2])],
        ),
        Refusal::Load(0),
    ),
    (
        "a product with the load's denominator that would wrap",
        A,
        (&[(12, 2), (2, 1)], &[2], &[(0, &[HALF + 6]), (0, &[0, 2])]),
        Refusal::Load(0),
    ),
    (
        "amounts of a missing group count as nothing",
        A,
        (&[(6, 1), (2, 1)], &[1, 2], &[(0, &[6]), (2, &[0, 2])]),
        Refusal::Load(1),
    ),
    (
        "no group at all",
        A,
        (&[(6, 1), (2, 1)], &[], &[(0, &[6]), (0, &[0, 2])]),
        Refusal::Load(0),
    ),
    // tasks
    (
        "a unit too few",
        B,
        (&[(2, 1), (2, 1), (1, 1)], &[7], &[(0, &[2, 2, 1])]),
        Refusal::Task(0),
    ),
    (
        "a unit too many",
        A,
        (&[(7, 1), (2, 1)], &[1, 2], &[(0, &[6]), (1, &[1, 2])]),
        Refusal::Task(1),
    ),
    (
        "halves of the units",
        A,
        (&[(6, 2), (2, 1)], &[1, 2], &[(0, &[6]), (1, &[0, 2])]),
        Refusal::Task(0),
    ),
    (
        "a sum that would wrap to the units",
        A,
        (
            &[(HALF + 6, 1), (HALF + 2, 1)],
            &[1, 2],
            &[(0, &[6]), (1, &[HALF, HALF + 2])],
        ),
        Refusal::Task(1),
    ),
    (
        "the largest numbers",
        A,
        (
            &[(u64::MAX, 255), (2, 1)],
            &[1, 2],
            &[(0, &[u64::MAX]), (1, &[0, 2])],
        ),
        Refusal::Task(0),
    ),
    (
        "a missing group, with loads without it",
        A,
        (&[(6, 1), (0, 1)], &[1, 2], &[(0, &[6]), (255, &[0, 2])]),
        Refusal::Task(1),
    ),
    (
        "a missing group, with no amounts",
        A,
        (&[(6, 1), (0, 1)], &[1, 2], &[(0, &[6]), (2, &[0, 0])]),
        Refusal::Task(1),
    ),
    (
        "a group with no hour of the night",
        A,
        (&[(6, 1), (0, 1)], &[1, 4], &[(0, &[6]), (1, &[0, 0])]),
        Refusal::Task(1),
    ),
    (
        "a missing group of a task that needs nothing",
        IDLE,
        (&[(0, 1)], &[1], &[(1, &[0])]),
        Refusal::Task(0),
    ),
    (
        "a group with no hour of a task that needs nothing",
        IDLE,
        (&[(0, 1)], &[0], &[(0, &[0])]),
        Refusal::Task(0),
    ),
    // two faults in one sheet
    (
        "a length and a load",
        A,
        (&[(7, 1), (2, 1)], &[1, 2], &[(0, &[6]), (1, &[0])]),
        Refusal::Length(39),
    ),
    (
        "two loads",
        A,
        (&[(7, 1), (3, 1)], &[1, 2], &[(0, &[6]), (1, &[0, 2])]),
        Refusal::Load(0),
    ),
    (
        "a load of the last hour, and the first task",
        A,
        (&[(7, 1), (3, 1)], &[1, 2], &[(0, &[7]), (1, &[0, 2])]),
        Refusal::Load(1),
    ),
    (
        "a load of the last hour, and a missing group of the first task",
        A,
        (&[(0, 1), (3, 1)], &[1, 2], &[(2, &[6]), (1, &[0, 2])]),
        Refusal::Load(1),
    ),
    (
        "a load, and not even",
        A,
        (&[(7, 1), (2, 1)], &[1, 2], &[(0, &[6]), (1, &[1, 1])]),
        Refusal::Load(1),
    ),
    (
        "two tasks",
        C,
        (
            &[(2, 1), (6, 1), (2, 1)],
            &[7],
            &[(0, &[2, 3]), (0, &[3, 2])],
        ),
        Refusal::Task(0),
    ),
    (
        "the last task, and not even for the first",
        C,
        (
            &[(2, 1), (4, 1), (3, 1)],
            &[7],
            &[(0, &[2, 2]), (0, &[2, 3])],
        ),
        Refusal::Task(1),
    ),
    (
        "not even for either task",
        C,
        (
            &[(1, 1), (6, 1), (1, 1)],
            &[7],
            &[(0, &[1, 3]), (0, &[3, 1])],
        ),
        Refusal::Uneven(0, 1, 0),
    ),
];

#[test]
fn refused(rt: HostRuntime) -> Result<(), Fail> {
    for (name, night, sheet, refusal) in CASES {
        gets(&rt, rt.alloc(), name, night, sheet, Err(refusal))?;
    }
    Ok(())
}
