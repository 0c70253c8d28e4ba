// The checker of sheets.
ghost use Rattle.std.specs.Prelude.{◌≡◌, true, is_ok, MatchResult};
ghost use Rattle.night.specs.Task.{Sound};
ghost use Rattle.even.specs.DayOf.{day, day_of};
ghost use Rattle.sheet.specs.Verdict.{Accepted, Refused, Unbeaten, code};

use crate::layout::Laid;
use crate::refusal::Refusal;
use night::night::Night;
use night::task::Task;

// The same for the parts of a night.
fn check_tasks(hours: usize, tasks: &[Task], sheet: &[u8]) -> Result<(), Refusal>
    requires { Sound hours tasks.now }
    ensures { MatchResult result (λ _. Accepted (day hours tasks.now) sheet.now) (λ e. Refused (day hours tasks.now) sheet.now (code e)) }
{
    let laid = Laid::new(hours, tasks, sheet)?;
    let overs = laid.overs();
    laid.loads(&overs)?;
    laid.rows(&overs)?;
    laid.levels()?;
    Ok(())
}

// Accepts a sheet exactly if its amounts make a plan of the night with its loads, and the plan is even; else it says what is wrong first: the
// length, then the loads by hours, then the tasks, then evenness. No plan of the night is more even, has a smaller largest load or
// costs less than that of a sheet that is accepted.
pub fn check(night: &Night, sheet: &[u8]) -> Result<(), Refusal>
    ensures outcome { MatchResult result (λ _. Accepted (day_of night.now) sheet.now) (λ e. Refused (day_of night.now) sheet.now (code e)) }
    ensures all { Accepted (day_of night.now) sheet.now → is_ok result ≡ true }
    ensures best { is_ok result ≡ true → Unbeaten (day_of night.now) sheet.now }
{
    check_tasks(night.hours(), night.tasks(), sheet)
}
