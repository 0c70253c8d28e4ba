// Networks with known outcomes.
use flow::fill::fill;
use flow::net::{Filled, Net, cells};
use sets::hours::Hours;
use std::test::Fail;

fn set(hours: &[usize]) -> Hours {
    hours.iter().fold(Hours::none(), |all, s| all.insert(*s))
}

// What task j ships into hour s. (`plan_tests` has the same few lines: a crate for them would be longer than they are.)
fn shipped(net: &Net, work: &[u64], j: usize, s: usize) -> u64 {
    match (net.marks.get(j), work.chunks_exact(96).nth(j)) {
        (Some(marks), Some(row)) if marks.contains(s) => row.get(s).copied().unwrap_or(0),
        _ => 0,
    }
}

// A later task pushes those before it on, over three hours; memory behind the rows stays.
#[test]
fn chain(rt: HostRuntime) -> Result<(), Fail> {
    let may = [
        set(&[0, 1]),
        set(&[1, 2]),
        set(&[2, 3]),
        set(&[3, 4]),
        set(&[0]),
    ];
    let mut work = vec![in rt.alloc(); 9u64; 500]?;
    let mut net = Net::new();
    let got = fill(&may, &[5; 5], Hours::below(5), [5; 96], &mut work, &mut net);
    assert_eq!(rt; got, Some(Filled::Whole));
    for j in 0..5 {
        let s = if j == 4 { 0 } else { j + 1 };
        assert_eq!(rt; shipped(&net, &work, j, s), 5, "each task one hour on");
    }
    assert!(rt; work.len() == 500);
    assert_eq!(rt; work[480], 9);
    assert_eq!(rt; work[499], 9);
    Ok(())
}

fn two(may: [Hours; 2], supply: [u64; 2], hours: Hours, bears: u64) -> Option<Filled> {
    let mut work = [7; 192];
    let mut net = Net::new();
    fill(&may, &supply, hours, [bears; 96], &mut work, &mut net)
}

// Two tasks, their supplies, the hours that are used and what each bears; then whether all is shipped, or which hours can
// still reach room.
#[test]
fn cuts(rt: HostRuntime) {
    let zero = set(&[0]);
    let one = set(&[1]);
    let both = set(&[0, 1]);
    let all = Hours::below(96);
    let outside = set(&[0, 100]);
    let whole = Filled::Whole;
    let full = Filled::Cut(Hours::none());
    let cases = [
        (
            "a full hour that looks free",
            [zero, both],
            [7, 2],
            both,
            5,
            Filled::Cut(one),
        ),
        ("just enough", [zero, both], [5, 5], both, 5, whole),
        ("one too many", [zero, both], [5, 6], both, 5, full),
        ("equal rows", [both, both], [5, 5], both, 5, whole),
        ("one hour is used", [both, both], [9, 9], zero, 5, full),
        ("no capacity", [zero, one], [1, 0], both, 0, full),
        ("no supply", [zero, one], [0, 0], both, 0, whole),
        ("one hour", [zero, zero], [1, 0], zero, 1, whole),
        (
            "an hour of nobody",
            [zero, zero],
            [1, 1],
            both,
            1,
            Filled::Cut(one),
        ),
        ("all hours", [all, all], [90, 6], all, 1, whole),
        ("all hours full", [all, all], [90, 7], all, 1, full),
        (
            "an hour from 96 on",
            [outside, outside],
            [1, 1],
            outside,
            1,
            full,
        ),
        (
            "large",
            [all, all],
            [u64::MAX, u64::MAX],
            all,
            u64::MAX,
            whole,
        ),
    ];
    for (name, may, supply, hours, bears, outcome) in cases {
        assert_eq!(rt; two(may, supply, hours, bears), Some(outcome), "{}", name);
    }
}

// Sizes that don't fit are refused, and nothing is changed.
#[test]
fn refusals(rt: HostRuntime) -> Result<(), Fail> {
    let row = set(&[0]);
    let mut work = vec![in rt.alloc(); 3u64; 191]?;
    let mut net = Net::new();
    assert_eq!(rt;
        fill(&[row], &[1, 1], row, [1; 96], &mut work, &mut net),
        None,
        "a row is missing"
    );
    assert_eq!(rt;
        fill(&[row; 2], &[1; 2], row, [1; 96], &mut work, &mut net),
        None,
        "a cell is missing"
    );
    let mut more = vec![in rt.alloc(); 3u64; 20000]?;
    assert_eq!(rt;
        fill(&[row; 201], &[1; 201], row, [1; 96], &mut more, &mut net),
        None,
        "201 tasks"
    );
    assert!(rt; work.len() == 191);
    assert_eq!(rt; work[0], 3);
    assert_eq!(rt; net.room[0], 0);
    assert_eq!(rt; cells(200), 19200);
    Ok(())
}
