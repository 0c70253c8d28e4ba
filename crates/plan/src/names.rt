// The names of tasks, which are for people's eyes only.
use change::kinds::Change;
use std::alloc::{AllocError, Global};

// The names after a row of changes: a task that comes has none, and one that goes takes its name along.
pub fn rename(heap: Global, names: &mut Vec<String>, row: &[Change]) -> Result<(), AllocError> {
    for change in row {
        match change {
            Change::Comes(_) => names.push(String::new(heap))?,
            Change::Goes(j) => {
                if *j < names.len() {
                    let _ = names.remove(*j);
                }
            }
            Change::More(_, _) => {}
        }
    }
    Ok(())
}
