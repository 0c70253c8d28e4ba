// Writing a night.
ghost use Rattle.std.specs.Prelude.{◌≡◌, ◌++◌, IfOk, OnOk};
ghost use Rattle.night.specs.Format.{task_bytes, night_bytes};
ghost use Rattle.night.specs.Night.{hours_of, tasks_of};

use super::Night;
use super::layout::row_width;
use crate::bytes::push_little;
use crate::task::Task;
use std::alloc::{AllocError, Global};

// Writes a task whose row takes so many bytes behind what there is.
fn push_task(out: &mut Vec<u8>, task: Task, row: usize) -> Result<(), AllocError>
    ensures { OnOk result (out.new.items ≡ out.old.items ++ task_bytes row task) }
{
    push_little(out, task.units as u128, 4)?;
    push_little(out, task.hours.bits(), row)?;
    Ok(())
}

// The bytes of a night, or an error for want of memory.
pub fn write(heap: Global, night: &Night) -> Result<Vec<u8>, AllocError>
    ensures { IfOk result (λ v. v.items ≡ night_bytes (hours_of night.now) (tasks_of night.now)) }
{
    let row = row_width(night.hours);
    let tasks = night.tasks.as_slice();
    let mut out = Vec::new(heap);
    out.push(night.hours as u8)?;
    out.push(tasks.len() as u8)?;
    for task in tasks {
        push_task(&mut out, *task, row)?;
    }
    Ok(out)
}
