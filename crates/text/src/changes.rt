// Reading changes that people wrote, one in a line.
ghost use Rattle.std.specs.Prelude.{◌≡◌, ◌^◌, ◌≤◌, [], ◌++◌, length, IfOk, MatchResult, OnOk};
ghost use Rattle.text.specs.Changes.{wrong_changes, change_lines, Meant, Passed, Changed};
ghost use Rattle.text.specs.Lines.{lines};
ghost use Rattle.text.specs.Told.{told};
ghost use Rattle.text.specs.Unread.{Blames};

use crate::change_line::read_change;
use crate::lines::content_of;
use crate::piece::{Lines, is_blank};
use crate::report::Report;
use crate::unread::{ReadError, accept, reject};
use change::kinds::Change;
use std::alloc::{AllocError, Global};

// A line more.
fn add_change(changes: &mut Vec<Change>, report: &mut Report, line: &[u8]) -> Result<(), AllocError>
    ensures { OnOk result (Passed line.now changes.old.items changes.new.items report.old report.new) }
{
    let text = content_of(line);
    if is_blank(text) {
        return Ok(());
    }
    if let Some(change) = read_change(text, report)? {
        changes.push(change)?;
    }
    Ok(())
}

// All lines of a text.
fn read_all(text: &[u8], report: &mut Report) -> Result<Vec<Change>, AllocError>
    requires short { length text.now ≤ 2 ^ 20 }
    requires start { report.old.line ≡ 0 }
    ensures read { IfOk result (λ v. Meant (change_lines (lines text.now)) v.items) }
    ensures told { OnOk result (told report.new.mistakes ≡ told report.old.mistakes ++ wrong_changes 1 (lines text.now)) }
{
    let mut changes = Vec::new(report.heap);
    for line in Lines::of(text) {
        // counted in the report, where every mistake takes its line from
        report.line += 1;
        add_change(&mut changes, report, line)?;
    }
    Ok(changes)
}

// The changes that a text says, in order; else all that is wrong with it.
pub fn read_changes(heap: Global, text: &[u8]) -> Result<Vec<Change>, ReadError>
    ensures { MatchResult result (λ v. Changed text.now v.items) (λ e. Blames text.now (wrong_changes 1 (lines text.now)) e) }
{
    reject(heap, text)?;
    let mut report = Report::new(heap);
    let changes = read_all(text, &mut report)?;
    accept(report.mistakes)?;
    Ok(changes)
}
