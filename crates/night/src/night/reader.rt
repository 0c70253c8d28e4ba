// Reading a night.
ghost use Rattle.std.specs.Prelude.{◌≡◌, ℕ, ◌<◌, IfOk, MatchResult, map};
ghost use Rattle.std.specs.List.{range_with_len};
ghost use Rattle.night.specs.Format.{task_in, WellFormed, Says};
ghost use Rattle.night.specs.Night.{hours_of, tasks_of};
ghost use Rattle.night.specs.Reading.{Headed};
ghost use Rattle.night.specs.Refusal.{Refuses};
ghost use Rattle.night.specs.Task.{Fits};

use super::Night;
use super::layout::task_place;
use crate::bytes::read_little;
use crate::limits::{MAX_HOURS, MAX_TASKS, MAX_UNITS};
use crate::refusal::Refusal;
use crate::task::Task;
use sets::hours::Hours;
use std::alloc::{AllocError, Global};

// Bytes with a good header: its hours and its number of tasks are in range, and no byte of these tasks is missing.
#[derive(Drop)]
struct Headed<'a> {
    bytes: &'a [u8],
    hours: usize,
    count: usize,
    ghost headed: { Headed bytes.now hours count },
}

impl<'a> Headed<'a> {
    // Reads the header.
    fn new(bytes: &'a [u8]) -> Result<Headed<'a>, Refusal>
        ensures { MatchResult result (λ t. t.bytes.now ≡ bytes.now) (λ e. Refuses bytes.now e) }
    {
        let [hours, count, ..] = bytes else {
            return Err(Refusal::Length(bytes.len()));
        };
        let hours = *hours as usize;
        let count = *count as usize;
        if bytes.len() < task_place(hours, count) {
            return Err(Refusal::Length(bytes.len()));
        }
        if hours == 0 || hours > MAX_HOURS {
            return Err(Refusal::HoursOutOfRange);
        }
        if count > MAX_TASKS {
            return Err(Refusal::TooManyTasks);
        }
        Ok(Headed {
            bytes,
            hours,
            count,
        })
    }

    // Task j.
    fn task(&self, j: usize) -> Task
        requires { j < self.now.count }
        ensures { result ≡ task_in self.now.bytes.now j }
    {
        let at = task_place(self.hours, j);
        let row = at + 4;
        let end = task_place(self.hours, j + 1);
        let units = read_little(&self.bytes[at..row]) as u32;
        let bits = read_little(&self.bytes[row..end]);
        Task {
            units,
            hours: Hours::from_bits(bits),
        }
    }

    // Refuses the first task that does not fit.
    fn check_tasks(&self) -> Result<(), Refusal>
        ensures { MatchResult result (λ _. (j : ℕ) → j < self.now.count → Fits self.now.hours (task_in self.now.bytes.now j)) (λ e. Refuses self.now.bytes.now e) }
    {
        // by number, which gives the place of the refusal
        for j in 0..self.count {
            let task = self.task(j);
            if task.units > MAX_UNITS {
                return Err(Refusal::TooManyUnits(task_place(self.hours, j)));
            }
            if !task.may_within(self.hours) {
                return Err(Refusal::BadRow(task_place(self.hours, j) + 4));
            }
        }
        Ok(())
    }

    // Refuses bytes that are no night: a task that does not fit, or bytes behind the last.
    fn check(&self) -> Result<(), Refusal>
        ensures { MatchResult result (λ _. WellFormed self.now.bytes.now) (λ e. Refuses self.now.bytes.now e) }
    {
        self.check_tasks()?;
        let end = task_place(self.hours, self.count);
        if self.bytes.len() > end {
            return Err(Refusal::Length(end));
        }
        Ok(())
    }

    // All tasks, in order.
    fn tasks(&self, heap: Global) -> Result<Vec<Task>, AllocError>
        ensures { IfOk result (λ v. v.items ≡ map (task_in self.now.bytes.now) (range_with_len 0 self.now.count)) }
    {
        (0..self.count).map(|j| self.task(j)).collect(heap)
    }
}

// The night that the bytes say, or why they say none.
pub fn read(heap: Global, bytes: &[u8]) -> Result<Night, Refusal>
    ensures { MatchResult result (λ n. WellFormed bytes.now × Says bytes.now (hours_of n) (tasks_of n)) (λ e. Refuses bytes.now e) }
{
    let headed = Headed::new(bytes)?;
    headed.check()?;
    let tasks = headed.tasks(heap)?;
    Ok(Night {
        hours: headed.hours,
        tasks,
    })
}
