// Plans a night: prints the load of each hour and the amounts of each task.
#![tactic(auto)]

mod help;
mod names;
mod output;

use change::evening::prepare;
use console::nights::{Form, changes_from, named_night_from};
use console::words::Words;
use console::{Fault, Work, program, tell, usage};
use help::ABOUT;
use names::rename;
use output::{Output, make, write_files};
use std::process::ExitCode;

#[derive(Drop)]
struct Planner;

impl Work for Planner {
    // Reads the night and its changes, plans it, and writes and prints what is asked for: nothing, if anything is refused.
    fn run(self, rt: &HostRuntime, words: &Words) -> Result<(), Fault> {
        if words.count() > 2 {
            return Err(usage(rt, "wanted: plan [NIGHT [SHEET]]")?);
        }
        let heap = rt.alloc();
        let night = words.plain(0).unwrap_or("-");
        let mut read = named_night_from(rt, night, Form::given(words))?;
        let row = match words.value("--changes") {
            Some(name) => changes_from(rt, name)?,
            None => Vec::new(heap),
        };
        let evening = prepare(heap, &read.night, row.as_slice()).try_map_err(|e| tell(rt, e))?;
        rename(heap, &mut read.names, row.as_slice())?;
        let Output { printed, picture } = make(rt, &evening, read.names.as_slice(), words)?;
        write_files(rt, &evening, picture.as_str(), words)?;
        print!(rt; "{printed}")?;
        Ok(())
    }
}

fn main(rt: HostRuntime) -> ExitCode {
    program(&rt, ABOUT, Planner)
}
