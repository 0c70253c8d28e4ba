// A line of a night that says a task: its name, its units, a colon, its hours.
ghost use Rattle.std.specs.Prelude.{◌≡◌, ◌^◌, ◌<◌, ◌≤◌, [], IfOk, string_bytes, IsUtf8, OnOk};
ghost use Rattle.text.specs.Number.{numeral};
ghost use Rattle.text.specs.Piece.{words};
ghost use Rattle.text.specs.TaskLine.{last_of, spaced, title, units_said, wrong_units, wrong_task, Entered};
ghost use Rattle.text.specs.Told.{Blamed};

use crate::hours_line::read_hours;
use crate::mistake::Fault;
use crate::number::number;
use crate::piece::{Words, split_once};
use crate::report::Report;
use night::limits::MAX_UNITS;
use night::task::Task;
use sets::hours::Hours;
use std::alloc::{AllocError, Global};

// A task, and the name that people know it by.
#[derive(Drop)]
pub struct Entry {
    pub task: Task,
    pub name: String,
}

// The last word; empty, if there is none.
fn last_word(text: &[u8]) -> &[u8]
    ensures { result.now ≡ last_of [] (words text.now) }
{
    Words(text).last().unwrap_or(&text[..0])
}

// A word more, after a space where it is not the first.
fn add_word(name: &mut Vec<u8>, word: &[u8]) -> Result<(), AllocError>
    ensures { OnOk result (name.new.items ≡ spaced name.old.items word.now) }
{
    if !name.is_empty() {
        name.push(b' ')?;
    }
    name.extend_from_slice(word)
}

// The words but the last, with a space between two.
fn read_name(heap: Global, text: &[u8]) -> Result<String, AllocError>
    ensures { IfOk result (λ s. IsUtf8 (title [] (words text.now)) → string_bytes s ≡ title [] (words text.now)) }
{
    let mut name = Vec::new(heap);
    let mut words = Words(text);
    if let Some(first) = words.next() {
        let mut word = first;
        for next in words {
            add_word(&mut name, word)?;
            word = next;
        }
    }
    String::from_utf8_lossy(heap, name.as_slice())
}

// The units that a word says; 0, where it is wrong.
fn read_units(word: &[u8], report: &mut Report) -> Result<u32, AllocError>
    ensures read { IfOk result (λ u. u ≡ units_said (numeral word.now)) }
    ensures told { OnOk result (Blamed report.old report.new (wrong_units report.old.line word.now (numeral word.now))) }
{
    let fault = match number(word) {
        Some(units) if units <= MAX_UNITS => return Ok(units),
        Some(_) => Fault::ManyUnits,
        None => Fault::NotUnits,
    };
    report.blame(fault, word)?;
    Ok(0)
}

// A task. Its hours are a word of 128 bits, which a list of tasks does not tell any more.
fn task_of(units: u32, hours: Hours) -> Task
    ensures same { result ≡ record { units = units; hours = hours } }
    ensures word { hours.bits < 2 ^ 128 }
{
    Task { units, hours }
}

// The task of a line; one with no units and no hour, where there is no colon. The limit on one number, `hours ≤ 96`, stays a clause here and
// in `add_task`, `read_hours` and `named_hours`: a type for it would say no more than the number does.
pub fn read_task(content: &[u8], hours: usize, report: &mut Report) -> Result<Entry, AllocError>
    requires { hours ≤ 96 }
    ensures read { IfOk result (λ e. Entered hours content.now e.task e.name) }
    ensures told { OnOk result (Blamed report.old report.new (wrong_task hours report.old.line content.now)) }
{
    let Some((left, right)) = split_once(content, b':') else {
        report.blame(Fault::Colon, &[])?;
        return Ok(Entry {
            task: task_of(0, Hours::none()),
            name: String::new(report.heap),
        });
    };
    let units = read_units(last_word(left), report)?;
    let hours = read_hours(right, hours, report)?;
    let name = read_name(report.heap, left)?;
    let task = task_of(units, hours);
    Ok(Entry { task, name })
}
