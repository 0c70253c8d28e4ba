// Nights and changes from files.
ghost use Rattle.console.specs.Form.{AsksFor};

use super::words::Words;
use super::{Fault, read_input, tell};
use change::kinds::Change;
use night::night::Night;
use std::alloc::AllocError;
use text::changes::read_changes;
use text::reader::{TextNight, read_text};
use text::unread::ReadError;

// How a night is written in a file.
#[derive(Clone, Copy)]
pub enum Form {
    Bytes,
    Text,
}

impl Form {
    // The form that the words name: text after `--text`, else bytes.
    pub fn given(words: &Words) -> Form
        ensures { AsksFor words.now.switches.items result }
    {
        if words.has("--text") {
            Form::Text
        } else {
            Form::Bytes
        }
    }
}

// Says on standard error what is wrong with a text, a line for each mistake.
fn blame(rt: &HostRuntime, name: &str, e: ReadError) -> Result<Fault, Fault> {
    match e {
        ReadError::Memory => Ok(AllocError.into()),
        ReadError::Mistakes(all) => {
            for mistake in all.iter() {
                eprintln!(rt; "{name}: {mistake}")?;
            }
            Ok(Fault::Refused)
        }
    }
}

// The night in a file, with the names of its tasks, of which bytes have none; a refusal, or each mistake of a text, is printed.
pub fn named_night_from(rt: &HostRuntime, name: &str, form: Form) -> Result<TextNight, Fault> {
    let heap = rt.alloc();
    let bytes = read_input(rt, name)?;
    match form {
        Form::Bytes => {
            let night = night::read(heap, bytes.as_slice()).try_map_err(|e| tell(rt, e))?;
            Ok(TextNight {
                night,
                names: Vec::new(heap),
            })
        }
        Form::Text => read_text(heap, bytes.as_slice()).try_map_err(|e| blame(rt, name, e)),
    }
}

// The night in a file; a refusal, or each mistake of a text, is printed.
pub fn night_from(rt: &HostRuntime, name: &str, form: Form) -> Result<Night, Fault> {
    Ok(named_night_from(rt, name, form)?.night)
}

// The row of changes in a file of text.
pub fn changes_from(rt: &HostRuntime, name: &str) -> Result<Vec<Change>, Fault> {
    let bytes = read_input(rt, name)?;
    read_changes(rt.alloc(), bytes.as_slice()).try_map_err(|e| blame(rt, name, e))
}
