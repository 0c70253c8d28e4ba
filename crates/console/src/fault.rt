// Why a program ends with status 1, and how it says so.
ghost use Rattle.std.specs.Prelude.{◌≡◌, ℕ, MatchResult};
ghost use Rattle.console.specs.declared.fault.Fault.TheVariants.{NoPlan, BadName};
ghost use Rattle.lines.specs.declared.text.Unprinted.TheVariants as Unprinted;
ghost use Rattle.text.specs.declared.writer.WriteError.TheVariants.{Name};

use lines::{RefusedLine, Unprinted};
use refusals::Numbered;
use std::alloc::{AllocError, AllocFailed};
use std::process::ExitCode;
use std::{fmt, io};
use text::writer::WriteError;

#[derive(Drop)]
pub enum Fault {
    // the words on the command line say nothing that the program knows
    Usage(String),
    // nor does this option
    Unknown(String),
    // the last option has no value
    NoValue,
    // the numbers of a plan are none that can be printed
    NoPlan,
    // the name of a task can't stand in a text
    BadName,
    // a file could not be read or written
    File(String, io::Error),
    // standard input, output or memory failed
    System(io::Error),
    // bytes that were to be turned are no night
    NotNight(RefusedLine),
    // the program has printed its refusal
    Refused,
}

impl From<AllocError> for Fault {
    fn from(e: AllocError) -> Fault {
        Fault::System(e.into())
    }
}

impl From<io::Error> for Fault {
    fn from(e: io::Error) -> Fault {
        Fault::System(e)
    }
}

impl<T: Drop> From<AllocFailed<T>> for Fault {
    fn from(_e: AllocFailed<T>) -> Fault {
        AllocError.into()
    }
}

impl From<Unprinted> for Fault {
    ghost from_gives = { λ e r. e ≡ Unprinted.NoPlan → r ≡ NoPlan };

    fn from(e: Unprinted) -> Fault {
        match e {
            Unprinted::NoMemory => AllocError.into(),
            Unprinted::NoPlan => Fault::NoPlan,
        }
    }
}

impl From<WriteError> for Fault {
    ghost from_gives = { λ e r. (j : ℕ) → e ≡ Name j → r ≡ BadName };

    fn from(e: WriteError) -> Fault {
        match e {
            WriteError::Memory => AllocError.into(),
            WriteError::Name(_) => Fault::BadName,
        }
    }
}

impl fmt::Display for Fault {
    fn fmt<W: fmt::Write>(&self, f: &mut fmt::Formatter<W>) -> fmt::Result {
        match self {
            Fault::Usage(what) => write!(f, "{what}"),
            Fault::Unknown(option) => write!(f, "unknown option '{option}'"),
            Fault::NoValue => write!(f, "the last option wants a value"),
            Fault::NoPlan => write!(f, "the plan can't be printed"),
            Fault::BadName => write!(f, "a name can't be written"),
            Fault::File(name, e) => write!(f, "{name}: {e}"),
            Fault::System(e) => write!(f, "{e}"),
            Fault::NotNight(line) => write!(f, "{line}"),
            Fault::Refused => write!(f, "refused"),
        }
    }
}

// A fault of usage, in so many words.
pub fn usage(rt: &HostRuntime, what: &str) -> Result<Fault, AllocError> {
    Ok(Fault::Usage(String::from_str(rt.alloc(), what)?))
}

// Prints a refusal by its number and place, and says that it was printed.
pub fn refuse(rt: &HostRuntime, number: usize, place: usize) -> Result<Fault, io::Error> {
    let line = RefusedLine {
        number: number as u64,
        place: place as u64,
    };
    println!(rt; "{line}")?;
    Ok(Fault::Refused)
}

// The same of a refusal that knows its number and place.
pub fn tell<R: Numbered>(rt: &HostRuntime, refusal: R) -> Result<Fault, Fault> {
    Ok(refuse(rt, refusal.number(), refusal.place())?)
}

// Says on standard error what went wrong, but for a refusal, which the program has printed already.
pub fn report(rt: &HostRuntime, program: &str, r: Result<(), Fault>) -> Result<(), Fault> {
    match &r {
        Ok(()) | Err(Fault::Refused) => {}
        Err(e) => eprintln!(rt; "{program}: {e}")?,
    }
    r
}

// The status with which a program ends, once what went wrong is said: 0, or 1 for any fault.
pub fn status(r: Result<(), Fault>) -> ExitCode
    ensures { MatchResult r (λ _. result ≡ ExitCode.SUCCESS) (λ _. result ≡ ExitCode.FAILURE) }
{
    match r {
        Ok(()) => ExitCode::SUCCESS,
        Err(_) => ExitCode::FAILURE,
    }
}
