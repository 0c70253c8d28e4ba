// The text of a whole plan.
ghost use Rattle.std.specs.Prelude.{◌≡◌, ◌*◌, ◌≤◌, ◌++◌, length, string_bytes, OnOk, slice_index, slice_index_or};
ghost use Rattle.fraction.specs.Limits.{max_hours};
ghost use Rattle.fraction.specs.declared.exact.Fraction.{Fraction};
ghost use Rattle.lines.specs.declared.text.Unprinted.TheVariants.{NoMemory};
ghost use Rattle.lines.specs.Text.{hours_text, task_text, tasks_text, plan_text, row_printable, tasks_printable, plan_printable, Prints};

use crate::line::{HourLine, TaskLine};
use fraction::{Fraction, MAX_HOURS};
use std::alloc::{AllocError, Global};
use std::fmt;

// Adds a line for each hour; fails for want of memory.
fn add_hours(text: &mut String, loads: &[Fraction]) -> fmt::Result
    ensures { (d : Fraction) → OnOk result (string_bytes text.new ≡ string_bytes text.old ++ hours_text (length loads.now) (λ s. (slice_index_or loads.now s d).num) (λ s. (slice_index_or loads.now s d).den)) }
{
    for (hour, load) in loads.iter().enumerate() {
        let line = HourLine { hour, load: *load };
        writeln!(text, "{line}")?;
    }
    Ok(())
}

// Why a plan is not printed: no memory, or numbers that are no plan's.
#[derive(Clone, Copy, PartialEq, Eq, Debug)]
pub enum Unprinted {
    NoMemory,
    NoPlan,
}

// A write to a text fails for want of memory only.
impl From<fmt::Error> for Unprinted {
    ghost from_gives = { λ _ y. y ≡ NoMemory };

    fn from(_error: fmt::Error) -> Unprinted {
        Unprinted::NoMemory
    }
}

// Want of memory, as a text that is written to says it.
impl From<AllocError> for Unprinted {
    ghost from_gives = { λ _ y. y ≡ NoMemory };

    fn from(_error: AllocError) -> Unprinted {
        Unprinted::NoMemory
    }
}

// Adds a line for each amount of a task that isn't 0.
fn add_task(text: &mut String, task: usize, parts: u64, row: &[u64]) -> Result<(), Unprinted>
    ensures { Prints result (row_printable (length row.now) parts (λ s. slice_index row.now s)) (λ _. string_bytes text.new ≡ string_bytes text.old ++ task_text (length row.now) task parts (λ s. slice_index row.now s)) }
{
    for (hour, amount) in row.iter().enumerate() {
        if *amount == 0 {
            continue;
        }
        let amount = Fraction::reduced(*amount, parts).ok_or(Unprinted::NoPlan)?;
        let line = TaskLine { task, hour, amount };
        writeln!(text, "{line}")?;
    }
    Ok(())
}

// Adds the lines of all tasks.
fn add_tasks(
    text: &mut String,
    hours: usize,
    parts: &[u64],
    amounts: &[u64],
) -> Result<(), Unprinted>
    requires narrow { hours ≤ max_hours }
    requires rows { length parts.now * max_hours ≤ length amounts.now }
    ensures { Prints result (tasks_printable hours parts.now amounts.now) (λ _. string_bytes text.new ≡ string_bytes text.old ++ tasks_text hours parts.now amounts.now) }
{
    // rows by place, since each is the first hours of 96 amounts
    for (task, parts) in parts.iter().enumerate() {
        let start = task * MAX_HOURS;
        add_task(text, task, *parts, &amounts[start..start + hours])?;
    }
    Ok(())
}

// The text of a plan: a line for each hour with its load, then one for each amount that isn't 0, by task and hour.
// Task j has a row of MAX_HOURS amounts, each over parts[j].
pub fn plan_text(
    heap: Global,
    loads: &[Fraction],
    parts: &[u64],
    amounts: &[u64],
) -> Result<String, Unprinted>
    ensures { (d : Fraction) → Prints result (plan_printable loads.now parts.now amounts.now) (λ t. string_bytes t ≡ plan_text d loads.now parts.now amounts.now) }
{
    if loads.len() > MAX_HOURS || parts.len() > amounts.len() / MAX_HOURS {
        return Err(Unprinted::NoPlan);
    }
    let mut text = String::new(heap);
    add_hours(&mut text, loads)?;
    add_tasks(&mut text, loads.len(), parts, amounts)?;
    Ok(text)
}
