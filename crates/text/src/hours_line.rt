// The hours of a line.
ghost use Rattle.std.specs.Prelude.{◌≡◌, ℕ, ◌≤◌, IfOk, OnOk};
ghost use Rattle.sets.specs.Hours.{has};
ghost use Rattle.text.specs.Piece.{words};
ghost use Rattle.text.specs.Span.{covers, wrong_spans, wrong_hours};
ghost use Rattle.text.specs.Told.{Blamed};

use crate::mistake::Fault;
use crate::piece::{Words, is_blank};
use crate::report::Report;
use crate::span::{read_span, with_span};
use sets::hours::Hours;
use std::alloc::AllocError;

// The hours that the words of a text name. A word that names none is a mistake.
fn named_hours(text: &[u8], hours: usize, report: &mut Report) -> Result<Hours, AllocError>
    requires { hours ≤ 96 }
    ensures read { IfOk result (λ h. (k : ℕ) → has h k ≡ covers hours (words text.now) k) }
    ensures told { OnOk result (Blamed report.old report.new (wrong_spans hours report.old.line (words text.now))) }
{
    let mut set = Hours::none();
    for word in Words(text) {
        match read_span(word, hours) {
            Ok(span) => set = with_span(set, span),
            Err(fault) => report.blame(fault, word)?,
        }
    }
    Ok(set)
}

// The hours after a colon. It is a mistake if there is none.
pub fn read_hours(text: &[u8], hours: usize, report: &mut Report) -> Result<Hours, AllocError>
    requires { hours ≤ 96 }
    ensures read { IfOk result (λ h. (k : ℕ) → has h k ≡ covers hours (words text.now) k) }
    ensures told { OnOk result (Blamed report.old report.new (wrong_hours hours report.old.line (words text.now))) }
{
    if is_blank(text) {
        report.blame(Fault::NoHour, &[])?;
        return Ok(Hours::none());
    }
    named_hours(text, hours, report)
}
