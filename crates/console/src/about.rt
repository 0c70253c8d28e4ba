// What every program does around its own work: it reads its words, prints its help or its version, and says what went wrong.
ghost use Rattle.std.specs.Prelude.{◌≡◌, ◌⊎◌};

use crate::fault::{Fault, report, status};
use crate::words::{Words, given};
use std::process::ExitCode;

// What is known of a program before it runs.
#[derive(Clone, Copy)]
pub struct About {
    pub name: &'static str,
    pub version: &'static str,
    pub help: &'static str,
    // the switches that it knows, `--help` and `--version` among them where it has them
    pub switches: &'static [&'static str],
    // the options with a value that it knows
    pub options: &'static [&'static str],
}

// A program's own work. A trait, and not a closure: a call of one asks that it may be called, and `program` asks nothing.
pub trait Work: Drop {
    // Does what the words ask for.
    fn run(self, rt: &HostRuntime, words: &Words) -> Result<(), Fault>;
}

// Prints the help or the version where it is asked for; else runs the program's own work on its words.
fn answer<W: Work>(rt: &HostRuntime, about: About, work: W) -> Result<(), Fault> {
    let words = given(rt, about.switches, about.options)?;
    let About {
        name,
        version,
        help,
        ..
    } = about;
    if words.has("--help") {
        println!(rt; "{help}")?;
        return Ok(());
    }
    if words.has("--version") {
        println!(rt; "{name} {version}")?;
        return Ok(());
    }
    work.run(rt, &words)
}

// Runs a program, and answers its status.
pub fn program<W: Work>(rt: &HostRuntime, about: About, work: W) -> ExitCode
    ensures { (result ≡ ExitCode.SUCCESS) ⊎ (result ≡ ExitCode.FAILURE) }
{
    let end = answer(rt, about, work);
    status(report(rt, about.name, end))
}
