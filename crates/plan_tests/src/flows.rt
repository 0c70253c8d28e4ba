// A network with a long path.
use flow::fill::fill;
use flow::net::{Filled, Net, cells};
use sets::hours::Hours;
use std::alloc::Global;
use std::process::Abort;
use std::test::Fail;

// What task j ships into hour s. (`flow_tests` has the same few lines: a crate for them would be longer than they are.)
fn shipped(net: &Net, work: &[u64], j: usize, s: usize) -> u64 {
    match (net.marks.get(j), work.chunks_exact(96).nth(j)) {
        (Some(marks), Some(row)) if marks.contains(s) => row.get(s).copied().unwrap_or(0),
        _ => 0,
    }
}

// Tasks with hours j and j + 1 each, and a last one with hour 0 alone. The first fill puts each but the last two into its first hour, so that
// the last one pushes all of these on; memory behind the rows stays.
fn chain(rt: &impl Abort, heap: Global, tasks: u8) -> Result<(), Fail> {
    let tasks = tasks as usize;
    let mut may = Vec::new(heap);
    for j in 1..tasks {
        may.push(Hours::only(j).union(Hours::only(j - 1)))?;
    }
    may.push(Hours::only(0))?;
    let supply = vec![in heap; 5u64; tasks]?;
    let mut work = vec![in heap; 9u64; 9300]?;
    let mut net = Net::new();
    let all = Hours::below(tasks);
    let got = fill(&may, &supply, all, [5; 96], &mut work, &mut net);
    assert_eq!(rt; got, Some(Filled::Whole));
    for j in 0..tasks {
        let s = if j + 1 == tasks { 0 } else { j + 1 };
        assert_eq!(rt; shipped(&net, &work, j, s), 5, "each task one hour on");
    }
    for cell in work.iter().skip(tasks * 96) {
        assert_eq!(rt; *cell, 9);
    }
    Ok(())
}

// A path over 94 hours.
#[test]
fn long_chain(rt: HostRuntime) -> Result<(), Fail> {
    chain(&rt, rt.alloc(), 96)
}
