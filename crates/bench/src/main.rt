// Times the planning of nights and the checking of their sheets: what was found goes to standard output, the times to standard error.
#![tactic(auto)]

use console::nights::{Form, night_from};
use console::words::Words;
use console::{About, Fault, Work, program};
use level::{length_needed, plan_night};
use night::night::Night;
use sheet_writer::planned::{plan_sheet, sheet_room};
use std::alloc::{AllocError, Global};
use std::process::ExitCode;
use std::time::Instant;

const HELP: &str = "bench NIGHT..

Plans each night many times, and checks its sheet many times. Prints a line for each night: its name, hours, tasks, groups, flows and
highest load; and on standard error the median times of the planning call and of the checking call, in nanoseconds.

  --help     prints this";

// How many samples there are, and how many calls a sample has.
const SAMPLES: usize = 201;

const CALLS: usize = 4;

// A night, its sheet, and the memory that a planning call is lent.
#[derive(Drop)]
struct Lane {
    night: Night,
    plan: Vec<u64>,
    work: Vec<u64>,
    sheet: Vec<u8>,
}

impl Lane {
    // What a planning call is lent, as `change::evening` lends it: one function for both could only hand out three vectors.
    fn new(heap: Global, night: Night) -> Result<Lane, AllocError> {
        let need = length_needed(&night);
        let plan = vec![in heap; 0u64; need]?;
        let work = vec![in heap; 0u64; need]?;
        let sheet = vec![in heap; 0u8; sheet_room(&night)]?;
        Ok(Lane {
            night,
            plan,
            work,
            sheet,
        })
    }
}

// A call that is timed.
trait Timed {
    fn call(lane: &mut Lane);
}

// Planning the night.
struct Planning;

impl Timed for Planning {
    fn call(lane: &mut Lane) {
        let _ = plan_night(&lane.night, &mut lane.plan, &mut lane.work);
    }
}

// Checking its sheet.
struct Checking;

impl Timed for Checking {
    fn call(lane: &mut Lane) {
        let _ = sheet::check(&lane.night, lane.sheet.as_slice());
    }
}

// The time of a call, in nanoseconds, from a row of them.
fn sample<C: Timed>(rt: &HostRuntime, lane: &mut Lane) -> Result<u128, Fault> {
    let start = Instant::now(rt)?;
    for _ in 0..CALLS {
        C::call(lane);
    }
    Ok(start.elapsed(rt)?.as_nanos() / CALLS as u128)
}

// The median time of a call, in nanoseconds.
fn time<C: Timed>(rt: &HostRuntime, lane: &mut Lane) -> Result<u128, Fault> {
    let mut all = Vec::new(rt.alloc());
    for _ in 0..SAMPLES {
        all.push(sample::<C>(rt, lane)?)?;
    }
    all.sort()?;
    Ok(all.get(all.len() / 2).copied().unwrap_or(0))
}

// Plans the night in a file, and prints what was found and how long it takes.
fn race(rt: &HostRuntime, name: &str) -> Result<(), Fault> {
    let mut lane = Lane::new(rt.alloc(), night_from(rt, name, Form::Bytes)?)?;
    let Ok(planned) = plan_sheet(&lane.night, &mut lane.plan, &mut lane.work, &mut lane.sheet)
    else {
        return Err(console::usage(rt, "the lent memory is too short")?);
    };
    lane.sheet.truncate(planned.length);
    let hours = lane.night.hours();
    let tasks = lane.night.tasks().len();
    let groups = planned.levels.count;
    let flows = planned.levels.flows;
    let highest = planned.levels.levels[0];
    println!(rt;
        "{name} hours {hours} tasks {tasks} groups {groups} flows {flows} highest {highest}"
    )?;
    let planning = time::<Planning>(rt, &mut lane)?;
    let checking = time::<Checking>(rt, &mut lane)?;
    eprintln!(rt; "{name} plan {planning} check {checking}")?;
    Ok(())
}

const ABOUT: About = About {
    name: "bench",
    version: "1.0.0",
    help: HELP,
    switches: &["--help"],
    options: &[],
};

#[derive(Drop)]
struct Racer;

impl Work for Racer {
    // Races each night that the words name.
    fn run(self, rt: &HostRuntime, words: &Words) -> Result<(), Fault> {
        for name in words.all() {
            race(rt, name.as_str())?;
        }
        Ok(())
    }
}

fn main(rt: HostRuntime) -> ExitCode {
    program(&rt, ABOUT, Racer)
}
