// The loads of the hours.
ghost use Rattle.std.specs.Prelude.{◌≡◌, ℕ, ◌<◌, ◌≤◌, true, length, if◌then◌else◌, slice_index_or};
ghost use Rattle.level.specs.Load.{Same, level_at};
ghost use Rattle.level.specs.Parts.{nought};
ghost use Rattle.sets.specs.Hours.{has};

use crate::parts::Parts;
use fraction::Fraction;
use sets::hours::Hours;

// Writes a level into the hours of a set.
fn raise(all: &mut [Fraction], set: Hours, level: Fraction)
    requires low { (s : ℕ) → has set s ≡ true → s < length all.old }
    ensures { (s : ℕ) → slice_index_or all.new s nought ≡ (if has set s then level else slice_index_or all.old s nought) }
{
    'hours: for s in set {
        all[s] = level;
    }
}

// The loads of all hours: the level of the first group that has the hour, or 0 where it is of none.
pub fn loads(parts: &Parts) -> [Fraction; 96]
    requires found { parts.now.found ≤ 96 }
    ensures { (s : ℕ) → s < 96 → Same (slice_index_or result s nought) (level_at parts.now.found parts.now.hours parts.now.levels s) }
{
    let mut all = [Fraction::zero(); 96];
    let mut idle = Hours::below(96);
    'groups: for (hours, level) in parts.hours[..parts.found].iter().zip(&parts.levels) {
        let set = hours.common(idle);
        raise(&mut all, set, *level);
        idle = idle.minus(set);
    }
    all
}
