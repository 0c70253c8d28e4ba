// The bars of the hours, and what stands below them.
ghost use Rattle.std.specs.Prelude.{◌≡◌, ◌++◌, string_bytes, OnOk};
ghost use Rattle.lines.specs.Lines.{concat};
ghost use Rattle.picture.specs.Columns.{bar_text, column_at};
ghost use Rattle.picture.specs.Drawn.{fill_at};

use crate::chart::Chart;
use crate::frame::{Area, BASE, Frame, LEFT};
use crate::label::write_head;
use fraction::Fraction;
use std::alloc::AllocError;

// How a group is filled: there are eight ways, and a ninth for no group.
pub fn fill_of(group: Option<usize>) -> usize
    ensures { result ≡ fill_at group }
{
    match group {
        Some(g) => g % 8,
        None => 8,
    }
}

// A load above its bar, turned where there is no room.
fn write_load(out: &mut String, area: Area, load: Fraction) -> Result<(), AllocError> {
    let (x, y) = (area.x + area.wide / 2, area.y - 5);
    if area.wide >= 30 && load.num() < 1000 && load.den() < 10 {
        writeln!(
            out,
            "<text x=\"{x}\" y=\"{y}\" text-anchor=\"middle\" stroke=\"#fff\" stroke-width=\"3\" paint-order=\"stroke\">{load}</text>"
        )
    } else {
        let x = x + 4;
        writeln!(
            out,
            "<text transform=\"translate({x} {y}) rotate(-90)\" font-size=\"10\" stroke=\"#fff\" stroke-width=\"3\" paint-order=\"stroke\">{load}</text>"
        )
    }
}

// The bar of hour s.
fn write_column(
    out: &mut String,
    s: usize,
    area: Area,
    load: Fraction,
    fill: usize,
) -> Result<(), AllocError>
    ensures { OnOk result (string_bytes out.new ≡ string_bytes out.old ++ bar_text s area.x area.y area.wide area.high fill load.num load.den) }
{
    let Area { x, y, wide, high } = area;
    write!(
        out,
        "<rect x=\"{x}\" y=\"{y}\" width=\"{wide}\" height=\"{high}\""
    )?;
    writeln!(
        out,
        " fill=\"url(#g{fill})\" stroke=\"#222\"><title>hour {s}: {load}</title></rect>"
    )?;
    Ok(())
}

// The bars of all hours.
pub fn write_columns(out: &mut String, chart: Chart) -> Result<(), AllocError>
    ensures { OnOk result (string_bytes out.new ≡ string_bytes out.old ++ concat chart.entry.frame.hours (column_at chart.entry.drawn chart.entry.frame.column chart.entry.most.num chart.entry.most.den)) }
{
    for s in 0..chart.frame.hours {
        let load = chart.drawn.load(s);
        let fill = fill_of(chart.drawn.group(s));
        write_column(out, s, chart.bar_area(s, load), load, fill)?;
    }
    Ok(())
}

// The loads above the bars, and the line below them.
pub fn write_loads(out: &mut String, chart: Chart) -> Result<(), AllocError> {
    for s in 0..chart.frame.hours {
        let load = chart.drawn.load(s);
        write_load(out, chart.bar_area(s, load), load)?;
    }
    let right = chart.frame.right();
    writeln!(out, "<path d=\"M{LEFT} {BASE}H{right}\" stroke=\"#222\"/>")
}

// The numbers of the hours, as many as there is room for.
pub fn write_hours(out: &mut String, frame: Frame, y: usize) -> Result<(), AllocError> {
    let apart = if frame.column < 20 { 4 } else { 1 };
    for s in (0..frame.hours).step_by(apart) {
        let x = frame.x(s) + frame.column / 2;
        writeln!(
            out,
            "<text x=\"{x}\" y=\"{y}\" text-anchor=\"middle\">{s}</text>"
        )?;
    }
    Ok(())
}

// The numbers of the groups of the hours, turned where columns are narrow.
fn write_groups(out: &mut String, chart: Chart) -> Result<(), AllocError> {
    let frame = chart.frame;
    let (y, high) = (BASE + 33, BASE + 24);
    for s in 0..frame.hours {
        if let Some(g) = chart.drawn.group(s) {
            let x = frame.x(s) + frame.column / 2;
            if frame.column < 20 {
                let x = x + 3;
                writeln!(
                    out,
                    "<text transform=\"translate({x} {high}) rotate(-90)\" text-anchor=\"end\" font-size=\"9\">{g}</text>"
                )?;
            } else {
                writeln!(
                    out,
                    "<text x=\"{x}\" y=\"{y}\" text-anchor=\"middle\">{g}</text>"
                )?;
            }
        }
    }
    Ok(())
}

// The numbers of the hours and of their groups.
pub fn write_numbers(out: &mut String, chart: Chart) -> Result<(), AllocError> {
    write_head(out, LEFT - 10, BASE + 16, "end", "hour")?;
    write_hours(out, chart.frame, BASE + 16)?;
    write_head(out, LEFT - 10, BASE + 33, "end", "group")?;
    write_groups(out, chart)
}
