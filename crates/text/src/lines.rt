// A night, line by line.
ghost use Rattle.std.specs.Prelude.{◌≡◌, ◌^◌, ◌≤◌, length, IfSome, IfOk, OnOk};
ghost use Rattle.text.specs.Lines.{content, many, no_header, Added, Went, Read};
ghost use Rattle.text.specs.Told.{Blamed};

use crate::header::read_header;
use crate::mistake::Fault;
use crate::piece::{Lines, is_blank, split_once};
use crate::reading::Reading;
use crate::report::Report;
use crate::task_line::{Entry, read_task};
use night::limits::MAX_TASKS;
use std::alloc::{AllocError, Global};

// A line without its comment.
pub fn content_of(line: &[u8]) -> &[u8]
    ensures { result.now ≡ content line.now }
{
    split_once(line, b'#').map_or(line, |(front, _)| front)
}

// A task after so many is a mistake, if they are as many as a night can have.
fn check_count(tasks: usize, report: &mut Report) -> Result<(), AllocError>
    ensures { OnOk result (Blamed report.old report.new (many report.old.line tasks)) }
{
    if tasks == MAX_TASKS {
        report.blame(Fault::ManyTasks, &[])?;
    }
    Ok(())
}

// A task more, of a night with so many hours.
fn add_task(reading: &mut Reading, text: &[u8], hours: usize) -> Result<(), AllocError>
    requires { hours ≤ 96 }
    ensures { OnOk result (Added hours text.now reading.old reading.new) }
{
    check_count(reading.tasks.len(), &mut reading.report)?;
    let Entry { task, name } = read_task(text, hours, &mut reading.report)?;
    reading.tasks.push(task)?;
    reading.names.push(name)?;
    Ok(())
}

// A line more: nothing, the header, or a task.
fn read_line(reading: &mut Reading, line: &[u8]) -> Result<(), AllocError>
    requires { IfSome reading.old.hours (λ n. n ≤ 96) }
    ensures { OnOk result (Went line.now reading.old reading.new) }
{
    let text = content_of(line);
    if is_blank(text) {
        return Ok(());
    }
    if let Some(hours) = reading.hours {
        return add_task(reading, text, hours);
    }
    reading.hours = Some(read_header(text, &mut reading.report)?);
    Ok(())
}

// Without a header, the last line lacks it.
fn check_header(hours: Option<usize>, report: &mut Report) -> Result<(), AllocError>
    ensures { OnOk result (Blamed report.old report.new (no_header report.old.line hours)) }
{
    if hours.is_none() {
        report.blame(Fault::Header, &[])?;
    }
    Ok(())
}

// All lines of a text.
pub fn read_lines(heap: Global, text: &[u8]) -> Result<Reading, AllocError>
    requires { length text.now ≤ 2 ^ 20 }
    ensures { IfOk result (λ g. Read text.now g) }
{
    let mut reading = Reading {
        hours: None,
        tasks: Vec::new(heap),
        names: Vec::new(heap),
        report: Report::new(heap),
    };
    for line in Lines::of(text) {
        // counted in the report, where every mistake takes its line from
        reading.report.line += 1;
        read_line(&mut reading, line)?;
    }
    check_header(reading.hours, &mut reading.report)?;
    Ok(reading)
}
