// Checks a sheet against a night.
#![tactic(auto)]

use console::nights::{Form, night_from};
use console::words::Words;
use console::{About, Fault, Work, program, read_input, tell, usage};
use lines::UnevenLine;
use sheet::refusal::Refusal;
use std::process::ExitCode;

const HELP: &str = "check NIGHT SHEET

Checks the plan in the file SHEET against the night in the file NIGHT, one of which may be - for standard input.
Prints 'accepted' if the amounts make a plan of the night with these loads, and it is even; then no plan of the night
is cheaper under any tariff that is the same for each hour and dearer the more is drawn, and none has a smaller peak.
Else it prints what is wrong first and where, as 'refused 7 at 3', and ends with status 1:
  1  bytes end too early or go on   7  the load of an hour    8  the amounts of a task    9  not even

  --text     the night is a text
  --help     prints this
  --version  prints the version

Example: check examples/c.night c.sheet";

fn verdict(rt: &HostRuntime, r: Result<(), Refusal>) -> Result<(), Fault> {
    match r {
        Ok(()) => Ok(println!(rt; "accepted")?),
        Err(Refusal::Uneven(task, done, less)) => {
            let line = UnevenLine {
                task: task as u64,
                done: done as u64,
                less: less as u64,
            };
            println!(rt; "{line}")?;
            Err(Fault::Refused)
        }
        Err(e) => Err(tell(rt, e)?),
    }
}

const ABOUT: About = About {
    name: "check",
    version: "1.0.0",
    help: HELP,
    switches: &["--help", "--version", "--text"],
    options: &[],
};

#[derive(Drop)]
struct Checker;

impl Work for Checker {
    // Checks the sheet that the words name against their night.
    fn run(self, rt: &HostRuntime, words: &Words) -> Result<(), Fault> {
        let (Some(night), Some(sheet)) = (words.plain(0), words.plain(1)) else {
            return Err(usage(rt, "wanted: check NIGHT SHEET")?);
        };
        let night = night_from(rt, night, Form::given(words))?;
        let bytes = read_input(rt, sheet)?;
        verdict(rt, sheet::check(&night, bytes.as_slice()))
    }
}

fn main(rt: HostRuntime) -> ExitCode {
    program(&rt, ABOUT, Checker)
}
