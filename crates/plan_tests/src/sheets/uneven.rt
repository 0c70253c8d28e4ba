// Plans that look even, as sheets: each task and each load adds up.
use crate::given::{A, C, D, E, F, G, Given};
use crate::sheets::numbers::{Numbers, gets};
use sheet::refusal::Refusal;
use std::test::Fail;

const CASES: [(&str, Given, Numbers, Refusal); 9] = [
    (
        "A, each task spread over its own hours",
        A,
        (&[(7, 1), (1, 1)], &[1, 2], &[(0, &[6]), (1, &[1, 1])]),
        Refusal::Uneven(1, 0, 1),
    ),
    (
        "C, each task spread over its own hours",
        C,
        (
            &[(2, 1), (4, 1), (2, 1)],
            &[7],
            &[(0, &[2, 2]), (0, &[2, 2])],
        ),
        Refusal::Uneven(0, 1, 0),
    ),
    (
        "D, each task spread over its own hours",
        D,
        (
            &[(5, 2), (6, 2), (3, 2)],
            &[7],
            &[(0, &[5, 5]), (0, &[1, 1]), (0, &[2])],
        ),
        Refusal::Uneven(0, 1, 0),
    ),
    (
        "A, all where more lies",
        A,
        (&[(8, 1), (0, 1)], &[1, 2], &[(0, &[6]), (1, &[2, 0])]),
        Refusal::Uneven(1, 0, 1),
    ),
    (
        "G, the smallest peak, and the rest as it comes",
        G,
        (
            &[(4, 1), (1, 1), (0, 1)],
            &[1, 6],
            &[(0, &[4]), (1, &[1, 0])],
        ),
        Refusal::Uneven(1, 1, 2),
    ),
    (
        "F, the largest first, each in the hour where least is",
        F,
        (
            &[(6, 1), (0, 1), (0, 1)],
            &[7],
            &[(0, &[1]), (0, &[1]), (0, &[4, 0, 0])],
        ),
        Refusal::Uneven(2, 0, 1),
    ),
    (
        "F, the largest first, each spread where least is",
        F,
        (
            &[(10, 3), (4, 3), (4, 3)],
            &[7],
            &[(0, &[3]), (0, &[3]), (0, &[4, 4, 4])],
        ),
        Refusal::Uneven(2, 0, 1),
    ),
    (
        "E, the largest first, each spread where least is",
        E,
        (
            &[(19, 8), (19, 8), (21, 8), (21, 8)],
            &[15],
            &[
                (0, &[12, 12]),
                (0, &[6, 18]),
                (0, &[3, 21]),
                (0, &[7, 1, 0, 0]),
            ],
        ),
        Refusal::Uneven(1, 2, 1),
    ),
    (
        "the first of two hours with more, and of two with less",
        (4, &[(6, 0b1111)]),
        (
            &[(2, 1), (3, 1), (1, 1), (0, 1)],
            &[15],
            &[(0, &[2, 3, 1, 0])],
        ),
        Refusal::Uneven(0, 0, 2),
    ),
];

#[test]
fn looks_even(rt: HostRuntime) -> Result<(), Fail> {
    for (name, night, sheet, refusal) in CASES {
        gets(&rt, rt.alloc(), name, night, sheet, Err(refusal))?;
    }
    Ok(())
}
