// The tasks: when they may be done, and what is done when.
ghost use Rattle.std.specs.Prelude.{◌≡◌, ℕ, ◌<◌, ◌≤◌, true, false};
ghost use Rattle.sets.specs.Hours.{has};

use crate::chart::Chart;
use crate::columns::write_hours;
use crate::escape::escape;
use crate::frame::{Area, LEFT, ROWS};
use crate::label::{write_head, write_title};
use crate::length::bar;
use fraction::Fraction;
use night::task::Task;
use sets::hours::Hours;
use std::alloc::{AllocError, Global};

// The end of the run of hours of a set from s on.
fn run_end(set: Hours, s: usize, hours: usize) -> usize
    requires { s ≤ hours }
    ensures after { s ≤ result }
    ensures within { result ≤ hours }
    ensures run { (k : ℕ) → s ≤ k → k < result → has set k ≡ true }
    ensures stops { result < hours → has set result ≡ false }
{
    // A `find` over the range leaves open that the hours before are in the set.
    for k in s..hours {
        if !set.contains(k) {
            return k;
        }
    }
    hours
}

// What is done in hour s, dark: with the amount in it where there is room, else as high as it is against the most of the task.
fn write_amount(
    out: &mut String,
    s: usize,
    area: Area,
    amount: Fraction,
    most: Fraction,
) -> Result<(), AllocError>
    requires { 2 ≤ area.wide }
{
    let Area { x, y, wide, high } = area;
    let (x, wide) = (x + 1, wide - 2);
    let fits = wide >= 38 && amount.num() < 10000 && amount.den() < 100;
    let full = if fits { amount } else { most };
    let long = bar(amount, full, high);
    let foot = y + high;
    let top = foot - long;
    writeln!(
        out,
        "<rect x=\"{x}\" y=\"{top}\" width=\"{wide}\" height=\"{long}\" fill=\"#27496d\"><title>hour {s}: {amount}</title></rect>"
    )?;
    if fits {
        let (middle, below) = (x + wide / 2, foot.saturating_sub(4));
        let size = if amount.den() < 10 { 10 } else { 8 };
        writeln!(
            out,
            "<text x=\"{middle}\" y=\"{below}\" text-anchor=\"middle\" font-size=\"{size}\" fill=\"#fff\">{amount}</text>"
        )?;
    }
    Ok(())
}

// A task in its row.
#[derive(Clone, Copy)]
struct Row<'a> {
    chart: Chart<'a>,
    j: usize,
    task: Task,
    ghost few: { j < 200 },
}

impl Row<'_> {
    // A light bar for each run of hours in which the task may be done.
    fn write_windows(self, out: &mut String) -> Result<(), AllocError> {
        let (frame, set) = (self.chart.frame, self.task.hours);
        for s in 0..frame.hours {
            if set.contains(s) && (s == 0 || !set.contains(s - 1)) {
                let end = run_end(set, s, frame.hours);
                let Area { x, y, wide, high } = frame.run_area(self.j, s, end);
                writeln!(
                    out,
                    "<rect x=\"{x}\" y=\"{y}\" width=\"{wide}\" height=\"{high}\" rx=\"3\" fill=\"#d3dde8\" stroke=\"#8fa3b8\"/>"
                )?;
            }
        }
        Ok(())
    }

    // The most of the task that is done in an hour.
    fn most(self) -> Fraction {
        (0..self.chart.frame.hours)
            .filter_map(|s| self.chart.drawn.amount(self.j, s))
            .max()
            .unwrap_or(Fraction::zero())
    }

    // What is done of the task.
    fn write_amounts(self, out: &mut String) -> Result<(), AllocError> {
        let Chart { drawn, frame, .. } = self.chart;
        let most = self.most();
        for s in 0..frame.hours {
            if let Some(amount) = drawn.amount(self.j, s) {
                write_amount(out, s, frame.run_area(self.j, s, s + 1), amount, most)?;
            }
        }
        Ok(())
    }

    // The name of the task and its units.
    fn write_name(self, heap: Global, out: &mut String) -> Result<(), AllocError> {
        let frame = self.chart.frame;
        let name = escape(heap, self.chart.drawn.name(self.j))?;
        let (j, units) = (self.j, self.task.units);
        let (at, y) = (LEFT - 10, frame.y(j) + frame.row - 4);
        writeln!(
            out,
            "<text x=\"8\" y=\"{y}\" clip-path=\"url(#names)\">{j} {name}<title>{j} {name}</title></text>"
        )?;
        writeln!(
            out,
            "<text x=\"{at}\" y=\"{y}\" text-anchor=\"end\">{units}</text>"
        )
    }

    // All of the row.
    fn write(self, heap: Global, out: &mut String) -> Result<(), AllocError> {
        let frame = self.chart.frame;
        let (y, right) = (frame.y(self.j), frame.right());
        writeln!(out, "<path d=\"M8 {y}H{right}\" stroke=\"#ececec\"/>")?;
        self.write_windows(out)?;
        self.write_amounts(out)?;
        self.write_name(heap, out)
    }
}

// The rows of all tasks, under a title.
pub fn write_rows(heap: Global, out: &mut String, chart: Chart) -> Result<(), AllocError> {
    write_title(
        out,
        ROWS - 36,
        "Tasks: light where they may be done, dark where they are",
    )?;
    write_head(out, 8, ROWS - 8, "start", "task")?;
    write_head(out, LEFT - 10, ROWS - 8, "end", "units")?;
    write_hours(out, chart.frame, ROWS - 8)?;
    for (j, task) in chart.drawn.night.tasks().iter().enumerate() {
        let task = *task;
        Row { chart, j, task }.write(heap, out)?;
    }
    Ok(())
}
