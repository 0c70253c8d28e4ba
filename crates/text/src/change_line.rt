// A line that says a change: `comes UNITS : HOURS`, `goes TASK` or `more TASK UNITS`.
ghost use Rattle.std.specs.Prelude.{◌≡◌, IfOk, OnOk};
ghost use Rattle.text.specs.ChangeLine.{goes_said, more_said, change_said, wrong_change, SaysIt};
ghost use Rattle.text.specs.Piece.{words};
ghost use Rattle.text.specs.Told.{Blamed};

use crate::mistake::Fault;
use crate::number::number;
use crate::piece::Words;
use crate::report::Report;
use crate::task_line::{Entry, read_task};
use change::kinds::Change;
use night::limits::MAX_HOURS;
use night::task::Task;
use std::alloc::AllocError;

// What a line says, but for the task that comes.
#[derive(Clone, Copy)]
pub enum Said {
    Comes,
    Goes(usize),
    More(usize, u32),
}

// What follows `goes`.
fn read_goes(mut rest: Words<'_>) -> Option<Said>
    ensures { result ≡ goes_said (words rest.entry.0.now) }
{
    let task = rest.next()?;
    if rest.next().is_some() {
        return None;
    }
    Some(Said::Goes(number(task)? as usize))
}

// What follows `more`.
fn read_more(mut rest: Words<'_>) -> Option<Said>
    ensures { result ≡ more_said (words rest.entry.0.now) }
{
    let task = rest.next()?;
    let units = rest.next()?;
    if rest.next().is_some() {
        return None;
    }
    Some(Said::More(number(task)? as usize, number(units)?))
}

// What a line says.
fn read_said(content: &[u8]) -> Option<Said>
    ensures { result ≡ change_said (words content.now) }
{
    let mut words = Words(content);
    match words.next()? {
        b"comes" => Some(Said::Comes),
        b"goes" => read_goes(words),
        b"more" => read_more(words),
        _ => None,
    }
}

// The change that a line says; it is a mistake if there is none.
pub(crate) fn read_change(content: &[u8], report: &mut Report) -> Result<Option<Change>, AllocError>
    ensures read { IfOk result (λ o. SaysIt content.now (change_said (words content.now)) o) }
    ensures told { OnOk result (Blamed report.old report.new (wrong_change report.old.line content.now (change_said (words content.now)))) }
{
    let change = match read_said(content) {
        Some(Said::Comes) => {
            let Entry { task, name: _ } = read_task(content, MAX_HOURS, report)?;
            Some(Change::Comes(task))
        }
        Some(Said::Goes(task)) => Some(Change::Goes(task)),
        Some(Said::More(task, units)) => Some(Change::More(task, units)),
        None => {
            report.blame(Fault::NotChange, &[])?;
            None
        }
    };
    Ok(change)
}
