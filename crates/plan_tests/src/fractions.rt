// Fractions that are printed and compared.
use fraction::Fraction;
use std::test::Fail;

// numerator, denominator, and what is printed
const CASES: [(u64, u64, &str); 6] = [
    (8, 3, "8/3"),
    (16, 6, "8/3"),
    (6, 1, "6"),
    (0, 7, "0"),
    (5, 0, "none"),
    (1 << 47, 1, "none"),
];

#[test]
fn printed(rt: HostRuntime) -> Result<(), Fail> {
    for (num, den, text) in CASES {
        match Fraction::reduced(num, den) {
            Some(f) => assert_eq!(rt; f.to_string(rt.alloc())?.as_str(), text),
            None => assert_eq!(rt; "none", text),
        }
    }
    Ok(())
}

#[test]
fn ordered(rt: HostRuntime) {
    let a = Fraction::reduced(5, 2).unwrap_or(Fraction::zero());
    let b = Fraction::reduced(8, 3).unwrap_or(Fraction::zero());
    let c = Fraction::reduced(10, 4).unwrap_or(Fraction::zero());
    assert!(rt; a < b && !(b < a) && !(a < c));
    assert!(rt; a <= b && !(b <= a) && a <= c);
    assert!(rt; a == c && a != b && Fraction::zero() < a);
}
