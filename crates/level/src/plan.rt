// The call: the most even plan of a night.
ghost use Rattle.std.specs.Prelude.{◌≡◌, ◌<◌, ◌≤◌, length, MatchResult};
ghost use Rattle.level.specs.Levels.{needed, Solved, Refused};

use crate::levels::Levels;
use crate::load::loads;
use crate::short::Short;
use crate::walk::walk;
use night::night::Night;

// How long the lent slices must be: a row of 96 for each task.
pub fn length_needed(night: &Night) -> usize
    ensures { result ≡ needed night.now }
{
    night.tasks().len() * 96
}

// Finds the groups of a night, the highest level first, and the loads of its hours, and writes the amounts into the plan: row j, from 96 j on,
// has those of task j, over the denominator of its group's level. Refused, with nothing changed, are slices that are too short.
pub fn plan_night(night: &Night, plan: &mut [u64], work: &mut [u64]) -> Result<Levels, Short>
    ensures { MatchResult result
        (λ v. Solved night.now v plan.old plan.new work.old work.new)
        (λ e. Refused night.now e plan.old plan.new work.old work.new) }
{
    let need = length_needed(night);
    if plan.len() < need {
        return Err(Short::Plan);
    }
    if work.len() < need {
        return Err(Short::Work);
    }
    let walked = walk(night.hours(), night.tasks(), plan, work);
    let all = loads(&walked.parts);
    Ok(Levels {
        count: walked.parts.found,
        groups: walked.parts.hours,
        levels: walked.parts.levels,
        of: walked.parts.of,
        loads: all,
        flows: walked.flows,
        longest: walked.longest,
    })
}
