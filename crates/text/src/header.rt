// The first line of a night: `hours N`.
ghost use Rattle.std.specs.Prelude.{◌≡◌, IfOk, OnOk};
ghost use Rattle.text.specs.Header.{some_hours, header_says, hours_said, wrong_header};
ghost use Rattle.text.specs.Piece.{words};
ghost use Rattle.text.specs.Told.{Blamed};

use crate::mistake::Fault;
use crate::number::number;
use crate::piece::Words;
use crate::report::Report;
use night::limits::MAX_HOURS;
use std::alloc::AllocError;

// A number, if a night can have that many hours.
fn some_hours(n: Option<u32>) -> Option<usize>
    ensures { result ≡ some_hours n }
{
    n.map(|n| n as usize)
        .filter(|hours| 1 <= *hours && *hours <= MAX_HOURS)
}

// The number of hours that a header says.
fn header_says(content: &[u8]) -> Option<usize>
    ensures { result ≡ header_says (words content.now) }
{
    let mut words = Words(content);
    match (words.next()?, words.next(), words.next()) {
        (b"hours", Some(value), None) => some_hours(number(value)),
        _ => None,
    }
}

// The number of hours of a night; the largest, where the header is wrong.
pub fn read_header(content: &[u8], report: &mut Report) -> Result<usize, AllocError>
    ensures read { IfOk result (λ n. n ≡ hours_said (header_says (words content.now))) }
    ensures told { OnOk result (Blamed report.old report.new (wrong_header report.old.line (header_says (words content.now)))) }
{
    if let Some(hours) = header_says(content) {
        return Ok(hours);
    }
    report.blame(Fault::Header, &[])?;
    Ok(MAX_HOURS)
}
