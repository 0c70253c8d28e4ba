// A plan as bars of characters, for the terminal: at most 80 of them in a line.
ghost use Rattle.std.specs.Prelude.{◌≡◌, ◌++◌, IfOk, string_bytes, OnOk};
ghost use Rattle.fraction.specs.Fraction.{fraction_text};
ghost use Rattle.night.specs.Night.{hours_of};
ghost use Rattle.picture.specs.Bars.{mark_of, pad, times, bar_line, hour_bars, Lined};

use crate::drawn::Drawn;
use crate::length::{bar, largest};
use fraction::Fraction;
use std::alloc::{AllocError, Global};

// The longest bar.
const LONG: usize = 52;

// What stands above the lines.
const HEAD: &str =
    "hour, bar, load in units; the hours of a group bear one load and have one mark\n";

// What the bar of a group is made of.
fn mark_in(group: Option<usize>) -> &'static str
    ensures { result.now ≡ mark_of group }
{
    match group {
        None => ".",
        Some(g) => match g % 5 {
            0 => "#",
            1 => "=",
            2 => "o",
            3 => "+",
            _ => "-",
        },
    }
}

// A mark, again and again.
fn write_times(out: &mut String, mark: &str, count: usize) -> Result<(), AllocError>
    ensures { OnOk result (string_bytes out.new ≡ string_bytes out.old ++ times count mark.now) }
{
    for _ in 0..count {
        write!(out, "{mark}")?;
    }
    Ok(())
}

// What stands before the number of an hour, so that it takes two places.
fn pad_of(hour: usize) -> &'static str
    ensures { result.now ≡ pad hour }
{
    if hour < 10 { " " } else { "" }
}

// The line of an hour: its number, its bar, its load.
fn write_bar(
    out: &mut String,
    hour: usize,
    mark: &str,
    long: usize,
    load: Fraction,
) -> Result<(), AllocError>
    ensures { OnOk result (string_bytes out.new ≡ string_bytes out.old ++ bar_line hour mark.now long load.num load.den) }
{
    let pad = pad_of(hour);
    write!(out, "{pad}{hour} |")?;
    write_times(out, mark, long)?;
    writeln!(out, " {load}")?;
    Ok(())
}

// The lines of all hours.
fn write_bars(out: &mut String, drawn: Drawn, most: Fraction) -> Result<(), AllocError>
    ensures { OnOk result (string_bytes out.new ≡ string_bytes out.old ++ hour_bars drawn.entry most.num most.den) }
{
    for s in 0..drawn.night.hours() {
        let load = drawn.load(s);
        let mark = mark_in(drawn.group(s));
        write_bar(out, s, mark, bar(load, most, LONG), load)?;
    }
    Ok(())
}

// A line for each hour.
pub fn bars(heap: Global, drawn: Drawn) -> Result<String, AllocError>
    ensures { IfOk result (λ s. Lined drawn.entry (string_bytes s)) }
{
    let mut out = String::from_str(heap, HEAD)?;
    write_bars(&mut out, drawn, largest(drawn.loads))?;
    Ok(out)
}
