// The level of each group, exactly, beside a line at its height.
ghost use Rattle.std.specs.Prelude.{◌+◌, ◌≤◌, max, IfOk};

use crate::chart::Chart;
use crate::columns::fill_of;
use crate::frame::BASE;
use fraction::{Fraction, MAX_HOURS};
use sets::hours::Hours;
use std::alloc::AllocError;

// A line from an hour to the right at the height of a level, and on to its text where that is near.
fn write_line(
    out: &mut String,
    from: usize,
    right: usize,
    high: usize,
    y: usize,
) -> Result<(), AllocError>
    requires { (right ≤ 6000) × (high ≤ 400) }
{
    let bend = right + 40;
    let (end, end_y) = if y < high + 60 {
        (bend, y)
    } else {
        (right, high)
    };
    writeln!(
        out,
        "<path d=\"M{from} {high}H{right}L{end} {end_y}\" fill=\"none\" stroke=\"#777\" stroke-width=\"0.7\" stroke-dasharray=\"5 3\"/>"
    )
}

// How a group is filled, its level and how many hours it has.
fn write_level(
    out: &mut String,
    right: usize,
    y: usize,
    g: usize,
    level: Fraction,
    hours: usize,
) -> Result<(), AllocError>
    requires { (right ≤ 6000) × ((10 ≤ y) × (y ≤ 6000)) }
{
    let (box_x, box_y, text_x, text_y) = (right + 44, y - 6, right + 64, y + 4);
    let fill = fill_of(Some(g));
    let plural = if hours == 1 { "" } else { "s" };
    writeln!(
        out,
        "<rect x=\"{box_x}\" y=\"{box_y}\" width=\"14\" height=\"12\" fill=\"url(#g{fill})\" stroke=\"#222\"/>"
    )?;
    writeln!(
        out,
        "<text x=\"{text_x}\" y=\"{text_y}\" font-size=\"12\">group {g}: {level} in {hours} hour{plural}</text>"
    )
}

// The level of group g, which has these hours, not above `free`. Answers where the next may stand.
fn write_group(
    out: &mut String,
    chart: Chart,
    g: usize,
    hours: Hours,
    free: usize,
) -> Result<usize, AllocError>
    requires { free ≤ 4000 }
    ensures { IfOk result (λ y. (free ≤ y) × (y ≤ max free 400 + 17)) }
{
    let Some(first) = hours.lowest() else {
        return Ok(free);
    };
    let frame = chart.frame;
    let level = chart.drawn.load(first);
    let high = BASE - chart.high(level);
    let y = high.max(free);
    let right = frame.right();
    write_line(out, frame.x(first.min(frame.hours)), right, high, y)?;
    write_level(out, right, y, g, level, hours.count())?;
    Ok(y + 17)
}

// The levels of all groups. Answers where they end.
pub fn write_levels(out: &mut String, chart: Chart) -> Result<usize, AllocError>
    ensures { IfOk result (λ y. y ≤ 5000) }
{
    let mut free = 0;
    let groups = chart.drawn.groups;
    let groups = &groups[..groups.len().min(MAX_HOURS)];
    for (g, hours) in groups.iter().enumerate() {
        free = write_group(out, chart, g, *hours, free)?;
    }
    Ok(free)
}
