// The lines behind the bars: whole units, at most seven of them.
use crate::chart::Chart;
use crate::frame::{BASE, HIGH, LEFT};
use fraction::Fraction;
use std::alloc::AllocError;

// Units between two lines: 1, 2 or 5, with zeros.
fn step_of(top: u64) -> u64 {
    let mut unit = 1u64;
    for _ in 0..15 {
        let many = top / unit;
        if many <= 6 {
            return unit;
        }
        if many <= 12 {
            return unit.saturating_mul(2);
        }
        if many <= 30 {
            return unit.saturating_mul(5);
        }
        unit = unit.saturating_mul(10);
    }
    top.max(1)
}

// A line at a number of units.
fn write_line(out: &mut String, chart: Chart, units: u64) -> Result<(), AllocError> {
    let Some(load) = Fraction::whole(units) else {
        return Ok(());
    };
    let y = BASE - chart.high(load);
    let (at, below, right) = (LEFT - 6, y + 4, chart.frame.right());
    writeln!(out, "<path d=\"M{LEFT} {y}H{right}\" stroke=\"#d8d8d8\"/>")?;
    writeln!(
        out,
        "<text x=\"{at}\" y=\"{below}\" text-anchor=\"end\">{units}</text>"
    )
}

// The lines, and what they count.
pub fn write_scale(out: &mut String, chart: Chart) -> Result<(), AllocError> {
    let top = chart.most.num() / chart.most.den();
    let step = step_of(top);
    for k in 0..7u64 {
        let units = k.saturating_mul(step);
        if units <= top {
            write_line(out, chart, units)?;
        }
    }
    let (at, middle) = (LEFT - 90, BASE - HIGH / 2);
    writeln!(
        out,
        "<text transform=\"translate({at} {middle}) rotate(-90)\" text-anchor=\"middle\" font-size=\"12\">load: units in the hour</text>"
    )
}
