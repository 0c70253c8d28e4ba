// The whole way from a night to the sheet of its plan.
ghost use Rattle.std.specs.Prelude.{◌≡◌, MatchResult};
ghost use Rattle.sheet_writer.specs.Planned.{room, Sheeted, Unsheeted};

use crate::refusal::Short;
use crate::writer::{sheet_len, write};
use level::levels::Levels;
use level::{length_needed, plan_night};
use night::night::Night;

// The plan's groups and loads, and how many bytes its sheet has.
#[derive(Drop)]
pub struct Planned {
    pub levels: Levels,
    pub length: usize,
}

// How long the lent sheet must be: enough for a group in each hour.
pub fn sheet_room(night: &Night) -> usize
    ensures { result ≡ room night.now }
{
    sheet_len(night, night.hours() as u8)
}

// Plans the night, and writes the sheet of its plan, which is accepted. Refused, with nothing changed, are slices that are too short.
pub fn plan_sheet(
    night: &Night,
    plan: &mut [u64],
    work: &mut [u64],
    sheet: &mut [u8],
) -> Result<Planned, Short>
    ensures { MatchResult result
        (λ v. Sheeted night.now v.levels v.length plan.old plan.new work.old work.new sheet.old sheet.new)
        (λ e. Unsheeted night.now e plan.old plan.new work.old work.new sheet.old sheet.new) }
{
    // all three before anything is written, the planner's own two again, since a refusal changes nothing
    let need = length_needed(night);
    if plan.len() < need {
        return Err(Short::Plan);
    }
    if work.len() < need {
        return Err(Short::Work);
    }
    if sheet.len() < sheet_room(night) {
        return Err(Short::Sheet);
    }
    let levels = plan_night(night, plan, work).unwrap();
    let length = write(
        night,
        &levels.loads,
        &levels.groups,
        levels.count,
        &levels.of,
        plan,
        sheet,
    )
    .unwrap();
    Ok(Planned { levels, length })
}
