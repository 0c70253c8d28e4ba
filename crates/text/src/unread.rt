// Why a text is not read, before its lines are.
ghost use Rattle.std.specs.Prelude.{◌≡◌, ◌^◌, ◌≤◌, [], length, MatchResult, ◌≢◌};
ghost use Rattle.text.specs.declared.unread.ReadError.TheVariants.{Memory, Mistakes};
ghost use Rattle.text.specs.Lines.{lines};
ghost use Rattle.text.specs.Unread.{Alone, Fit, Rejects};

use crate::mistake::{Fault, Mistake};
use crate::piece::Lines;
use crate::report::Report;
use std::alloc::{AllocError, Global};
use std::fmt;

// The longest text that is read, in bytes. The three functions that walk over lines ask for it by a clause: a type for a text that is short
// enough would be made only to be taken apart.
pub const MAX_TEXT: usize = 1 << 20;

// Why a text was not read.
#[derive(Drop)]
pub enum ReadError {
    // there was no memory
    Memory,
    // the text has these mistakes, all of them, in the order of its lines
    Mistakes(Vec<Mistake>),
}

// Each mistake in a line of its own.
impl fmt::Display for ReadError {
    fn fmt<W: fmt::Write>(&self, f: &mut fmt::Formatter<W>) -> fmt::Result {
        match self {
            ReadError::Memory => writeln!(f, "no memory"),
            ReadError::Mistakes(mistakes) => {
                for mistake in mistakes.iter() {
                    writeln!(f, "{mistake}")?;
                }
                Ok(())
            }
        }
    }
}

// There was no memory.
impl From<AllocError> for ReadError {
    ghost from_gives = { λ _ e. e ≡ Memory };

    fn from(_: AllocError) -> ReadError {
        ReadError::Memory
    }
}

// A text with no mistake is read.
pub(crate) fn accept(mistakes: Vec<Mistake>) -> Result<(), ReadError>
    ensures { MatchResult result (λ _. mistakes.items ≡ []) (λ e. (e ≡ Mistakes mistakes) × (mistakes.items ≢ [])) }
{
    if mistakes.is_empty() {
        Ok(())
    } else {
        Err(ReadError::Mistakes(mistakes))
    }
}

// A text with one mistake is not read.
fn refuse(heap: Global, line: usize, fault: Fault) -> Result<(), ReadError>
    ensures { MatchResult result (λ _. ⊥) (λ e. Alone line fault e) }
{
    let mut report = Report::new(heap);
    report.line = line;
    report.blame(fault, &[])?;
    Err(ReadError::Mistakes(report.mistakes))
}

// How many lines there are.
fn count_lines(text: &[u8]) -> usize
    requires { length text.now ≤ 2 ^ 20 }
    ensures { result ≡ length (lines text.now) }
{
    Lines::of(text).count()
}

// A text that is too long, or not UTF-8, is not read.
pub(crate) fn reject(heap: Global, text: &[u8]) -> Result<(), ReadError>
    ensures { MatchResult result (λ _. Fit text.now) (λ e. Rejects text.now e) }
{
    if text.len() > MAX_TEXT {
        return refuse(heap, 1, Fault::Long);
    }
    match std::str::from_utf8(text) {
        Ok(_) => Ok(()),
        Err(error) => {
            let line = count_lines(&text[..error.valid_up_to()]);
            refuse(heap, line, Fault::Letters)
        }
    }
}
