// Writing a night as people write it.
ghost use Rattle.std.specs.Prelude.{◌≡◌, ℕ, ◌<◌, ◌++◌, string_bytes, MatchResult, OnOk};
ghost use Rattle.sets.specs.Hours.{has};
ghost use Rattle.night.specs.Night.{hours_of, tasks_of};
ghost use Rattle.text.specs.declared.writer.WriteError.TheVariants.{Memory};
ghost use Rattle.text.specs.Written.{follows, hour_text, hours_text, label, task_text, name_at, odd, plain, tasks_text, night_text, Wrote, Refuses};

use night::night::Night;
use night::task::Task;
use sets::hours::Hours;
use std::alloc::{AllocError, Global};

// Why a night was not written.
#[derive(Clone, Copy, PartialEq, Eq, Debug)]
pub enum WriteError {
    // there was no memory
    Memory,
    // the name of this task has a line break, a colon or a `#`
    Name(usize),
}

impl From<AllocError> for WriteError {
    ghost from_gives = { λ _ e. e ≡ Memory };

    fn from(_: AllocError) -> WriteError {
        WriteError::Memory
    }
}

// Whether the hour before k is in the set.
fn follows_one(hours: Hours, k: usize) -> bool
    ensures { result ≡ follows (has hours) k }
{
    k > 0 && hours.contains(k - 1)
}

// Hour k, where a run of hours begins or ends with it.
fn write_hour(out: &mut String, hours: Hours, k: usize) -> Result<(), AllocError>
    requires { k < 96 }
    ensures { OnOk result (string_bytes out.new ≡ string_bytes out.old ++ hour_text (has hours) k) }
{
    if !hours.contains(k) {
        return Ok(());
    }
    if !follows_one(hours, k) {
        return write!(out, " {k}");
    }
    if hours.contains(k + 1) {
        return Ok(());
    }
    write!(out, "-{k}")
}

// The hours of a set that lie below `count`.
fn write_hours(out: &mut String, hours: Hours, count: usize) -> Result<(), AllocError>
    requires { count < 97 }
    ensures { OnOk result (string_bytes out.new ≡ string_bytes out.old ++ hours_text (has hours) count) }
{
    for k in 0..count {
        write_hour(out, hours, k)?;
    }
    Ok(())
}

// A name and a space; nothing for an empty name.
fn write_label(out: &mut String, name: &str) -> Result<(), AllocError>
    ensures { OnOk result (string_bytes out.new ≡ string_bytes out.old ++ label name.now) }
{
    if name.is_empty() {
        return Ok(());
    }
    write!(out, "{name} ")
}

// The line of a task.
fn write_task(out: &mut String, name: &str, task: Task, hours: usize) -> Result<(), AllocError>
    requires { hours < 97 }
    ensures { OnOk result (string_bytes out.new ≡ string_bytes out.old ++ task_text hours name.now task) }
{
    write_label(out, name)?;
    let units = task.units;
    write!(out, "{units} :")?;
    write_hours(out, task.hours, hours)?;
    writeln!(out)?;
    Ok(())
}

// The name of task j; empty, if there is none.
fn name_of(names: &[String], j: usize) -> &str
    ensures { result.now ≡ name_at names.now j }
{
    names.get(j).map_or("", |name| name.as_str())
}

// Whether the byte b would end a name.
fn ends_name(b: u8) -> bool
    ensures { result ≡ odd b }
{
    matches!(b, b'\n' | b'#' | b':')
}

// Whether a name has no byte that would end it.
fn is_plain(name: &str) -> bool
    ensures { result ≡ plain name.now }
{
    name.as_bytes().iter().all(|b| !ends_name(*b))
}

// The lines of the tasks, up to a name that can't be written.
fn write_tasks(
    out: &mut String,
    tasks: &[Task],
    names: &[String],
    hours: usize,
) -> Result<(), WriteError>
    requires { hours < 97 }
    ensures { MatchResult result
        (λ _. Wrote tasks.now names.now (string_bytes out.new) (string_bytes out.old ++ tasks_text hours tasks.now names.now))
        (λ e. Refuses tasks.now names.now e) }
{
    for (j, task) in tasks.iter().enumerate() {
        let name = name_of(names, j);
        if !is_plain(name) {
            return Err(WriteError::Name(j));
        }
        write_task(out, name, *task, hours)?;
    }
    Ok(())
}

// A night as a text, with a name for each of its tasks where there is one.
pub fn write_text(heap: Global, night: &Night, names: &[String]) -> Result<String, WriteError>
    ensures { MatchResult result
        (λ s. Wrote (tasks_of night.now) names.now (string_bytes s) (night_text (hours_of night.now) (tasks_of night.now) names.now))
        (λ e. Refuses (tasks_of night.now) names.now e) }
{
    let hours = night.hours();
    let mut out = format!(in heap; "hours {hours}\n")?;
    write_tasks(&mut out, night.tasks(), names, hours)?;
    Ok(out)
}
