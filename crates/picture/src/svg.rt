// A plan as an SVG: a bar for each hour, the level of each group, and the tasks below.
ghost use Rattle.std.specs.Prelude.{◌+◌, ◌*◌, ◌<◌, IfOk, string_bytes};
ghost use Rattle.picture.specs.Svg.{Framed};

use crate::chart::Chart;
use crate::columns::{write_columns, write_loads, write_numbers};
use crate::drawn::Drawn;
use crate::label::write_title;
use crate::levels::write_levels;
use crate::rows::write_rows;
use crate::scale::write_scale;
use std::alloc::{AllocError, Global};

// Eight fillings that differ in colour and, for those who see or print none, in their lines; and a ninth for no group.
const FILLS: &str =
    "<pattern id=\"g0\" width=\"6\" height=\"6\" patternUnits=\"userSpaceOnUse\"><path d=\"M0 0H6V6H0Z\" fill=\"#0072b2\"/></pattern>
<pattern id=\"g1\" width=\"6\" height=\"6\" patternUnits=\"userSpaceOnUse\"><path d=\"M0 0H6V6H0Z\" fill=\"#f2b134\"/><path d=\"M-1 7L7 -1\" stroke=\"#222\"/></pattern>
<pattern id=\"g2\" width=\"6\" height=\"6\" patternUnits=\"userSpaceOnUse\"><path d=\"M0 0H6V6H0Z\" fill=\"#7cc8f0\"/><path d=\"M2 2H4V4H2Z\" fill=\"#222\"/></pattern>
<pattern id=\"g3\" width=\"6\" height=\"6\" patternUnits=\"userSpaceOnUse\"><path d=\"M0 0H6V6H0Z\" fill=\"#35b18b\"/><path d=\"M0 3H6\" stroke=\"#222\"/></pattern>
<pattern id=\"g4\" width=\"6\" height=\"6\" patternUnits=\"userSpaceOnUse\"><path d=\"M0 0H6V6H0Z\" fill=\"#f4ec7a\"/><path d=\"M-1 -1L7 7\" stroke=\"#222\"/></pattern>
<pattern id=\"g5\" width=\"6\" height=\"6\" patternUnits=\"userSpaceOnUse\"><path d=\"M0 0H6V6H0Z\" fill=\"#e07a3f\"/><path d=\"M3 0V6\" stroke=\"#222\"/></pattern>
<pattern id=\"g6\" width=\"6\" height=\"6\" patternUnits=\"userSpaceOnUse\"><path d=\"M0 0H6V6H0Z\" fill=\"#dba3c4\"/><path d=\"M0 3H6M3 0V6\" stroke=\"#222\"/></pattern>
<pattern id=\"g7\" width=\"6\" height=\"6\" patternUnits=\"userSpaceOnUse\"><path d=\"M0 0H6V6H0Z\" fill=\"#ffffff\"/><path d=\"M-1 7L7 -1M-1 -1L7 7\" stroke=\"#222\" stroke-width=\"0.6\"/></pattern>
<pattern id=\"g8\" width=\"6\" height=\"6\" patternUnits=\"userSpaceOnUse\"><path d=\"M0 0H6V6H0Z\" fill=\"#eeeeee\"/></pattern>
";

// The fillings, a white ground, and a title.
fn write_ground(out: &mut String, width: usize, height: usize) -> Result<(), AllocError> {
    writeln!(
        out,
        "<title>An even plan</title>\n<defs>\n{FILLS}<clipPath id=\"names\"><rect width=\"140\" height=\"{height}\"/></clipPath>\n</defs>"
    )?;
    writeln!(
        out,
        "<rect width=\"{width}\" height=\"{height}\" fill=\"#fff\"/>"
    )?;
    write_title(
        out,
        22,
        "The load of each hour, exactly; the hours of a group bear one load",
    )
}

// What lies behind the bars: the ground, the levels and the scale. Answers the height of the picture.
fn write_behind(heap: Global, out: &mut String, chart: Chart) -> Result<usize, AllocError>
    ensures { IfOk result (λ h. 500 + chart.entry.frame.tasks * chart.entry.frame.row < h) }
{
    let mut levels = String::new(heap);
    let end = write_levels(&mut levels, chart)?;
    let height = chart.frame.height(end);
    write_ground(out, chart.frame.width(), height)?;
    write!(out, "{levels}")?;
    write_scale(out, chart)?;
    Ok(height)
}

// What comes after the bars: loads, numbers and tasks.
fn write_after(heap: Global, out: &mut String, chart: Chart) -> Result<(), AllocError> {
    write_loads(out, chart)?;
    write_numbers(out, chart)?;
    write_rows(heap, out, chart)
}

// A plan as an SVG.
pub fn svg(heap: Global, drawn: Drawn) -> Result<String, AllocError>
    ensures { IfOk result (λ s. Framed drawn.entry (string_bytes s)) }
{
    let chart = Chart::new(drawn);
    let mut behind = String::new(heap);
    let height = write_behind(heap, &mut behind, chart)?;
    let mut bars = String::new(heap);
    write_columns(&mut bars, chart)?;
    let mut after = String::new(heap);
    write_after(heap, &mut after, chart)?;
    let body = format!(in heap; "{behind}{bars}{after}")?;
    let width = chart.frame.width();
    let text = format!(in heap;
        "<svg xmlns=\"http://www.w3.org/2000/svg\" width=\"{width}\" height=\"{height}\" viewBox=\"0 0 {width} {height}\" font-family=\"sans-serif\" font-size=\"11\">\n{body}</svg>\n"
    )?;
    Ok(text)
}
