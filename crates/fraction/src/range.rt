// The range of the numbers that a plan needs: no sum or product of them comes near 2 ^ 63.
ghost use Rattle.std.specs.Prelude.{◌≡◌, ◌*◌, ◌<◌};
ghost use Rattle.fraction.specs.Fraction.{product_end};
ghost use Rattle.fraction.specs.Limits.{max_hours, max_tasks, max_units};
ghost use Rattle.fraction.specs.Range.{Bounds};

use crate::limits::{MAX_HOURS, MAX_TASKS, MAX_UNITS};

// The largest number of any plan: all units of the largest night, times its hours.
pub fn largest() -> u64
    ensures value { result ≡ max_tasks * max_units * max_hours }
    ensures bounds { Bounds result }
    ensures below { result < product_end }
{
    MAX_TASKS as u64 * MAX_UNITS as u64 * MAX_HOURS as u64
}
