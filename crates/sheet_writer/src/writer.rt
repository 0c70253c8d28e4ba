// The writer of sheets.
ghost use Rattle.std.specs.Prelude.{◌≡◌, ℕ, ◌+◌, ◌*◌, ◌<◌, ◌≤◌, true, length, take, IfOk, Decides, MatchResult, slice_index, slice_index_or};
ghost use Rattle.fraction.specs.declared.exact.Fraction.{Fraction as Level};
ghost use Rattle.fraction.specs.Sum.{size, sum};
ghost use Rattle.even.specs.DayOf.{day, day_of};
ghost use Rattle.night.specs.Format.{width};
ghost use Rattle.sets.specs.Hours.{has};
ghost use Rattle.night.specs.Night.{hours_of, tasks_of};
ghost use Rattle.night.specs.Task.{Sound};
ghost use Rattle.sheet.specs.Verdict.{Accepted};
ghost use Rattle.sheet.specs.Layout.{listed};
ghost use Rattle.sheet.specs.Sheet.{row, word};
ghost use Rattle.sheet_writer.specs.Written.{Fitting, GroupsPut, Kept, LevelPlan, LoadsPut, NotWritten, Says, TasksPut, Wrote, span, why};

use crate::put::{put_bits, put_row, put_word};
use crate::refusal::Unwritten;
use fraction::Fraction;
use night::night::Night;
use night::task::Task;
use sets::hours::Hours;
use sheet::{row_bytes, starts};

// Puts a load into the nine bytes from `p` on.
fn put_load(b: &mut [u8], p: usize, load: Fraction)
    requires within { p + 9 ≤ length b.old }
    requires small { load.den < 256 }
    ensures num { word b.new p ≡ load.num }
    ensures den { slice_index b.new (p + 8) ≡ load.den }
    ensures kept { Kept p (p + 9) b.old b.new }
{
    put_word(b, p, load.num());
    b[p + 8] = load.den() as u8;
}

// Puts the group of a task, and the amounts of its row for the hours of a set, into the bytes from `p` on. It says where they end.
fn put_task(b: &mut [u8], p: usize, group: usize, set: Hours, row: &[u64]) -> usize
    requires within { p + (1 + size (length row.now) (has set) * 8) ≤ length b.old }
    requires small { group < 256 }
    ensures end { result ≡ p + (1 + size (length row.now) (has set) * 8) }
    ensures group { slice_index b.new p ≡ group }
    ensures amounts { (s : ℕ) → s < length row.now → has set s ≡ true → listed b.new (p + 1) (has set) s ≡ slice_index row.now s }
    ensures kept { Kept p (p + (1 + size (length row.now) (has set) * 8)) b.old b.new }
{
    b[p] = group as u8;
    put_row(b, p + 1, set, row)
}

// Does each denominator take one byte?
fn dens_fit(loads: &[Fraction]) -> bool
    ensures { Decides result ((s : ℕ) (d : Level) → s < length loads.now → (slice_index_or loads.now s d).den < 256) }
{
    loads.iter().all(|load| load.den() <= 255)
}

// Does each group take one byte?
fn groups_fit(of: &[usize]) -> bool
    ensures { Decides result ((j : ℕ) → j < length of.now → slice_index of.now j < 256) }
{
    of.iter().all(|group| *group <= 255)
}

// Has a sheet a place for these numbers?
fn fits(night: &Night, loads: &[Fraction; 96], found: usize, of: &[usize; 200]) -> bool
    ensures { Decides result (Fitting (hours_of night.now) (length (tasks_of night.now)) loads.now found of.now) }
{
    found <= 96 && dens_fit(&loads[..night.hours()]) && groups_fit(&of[..night.tasks().len()])
}

// How long a sheet of the night is with so many groups.
fn span_of(night: &Night, found: usize) -> usize
    requires { found ≤ 255 }
    ensures { result ≡ span (day_of night.now) found }
{
    let hours = night.hours();
    let tasks = night.tasks();
    let starts = starts(hours, tasks, hours * 9 + 1 + found * row_bytes(hours));
    starts[tasks.len()]
}

// The same, for callers that count groups in a byte.
pub fn sheet_len(night: &Night, groups: u8) -> usize
    ensures { result ≡ span (day_of night.now) groups }
{
    span_of(night, groups as usize)
}

// What a sheet of a night says of a plan: the loads by hours, the hours of so many groups, the group of each task, and the amounts, in which
// a task's row takes 96 places. A sheet has a place for all of them.
#[derive(Clone, Copy)]
struct Content<'a> {
    night: &'a Night,
    loads: &'a [Fraction; 96],
    groups: &'a [Hours; 96],
    found: usize,
    of: &'a [usize; 200],
    plan: &'a [u64],
    ghost few: { found ≤ 96 },
    ghost dens: { (s : ℕ) (d : Level) → s < hours_of night.now → (slice_index_or loads.now s d).den < 256 },
    ghost small: { (j : ℕ) → j < length (tasks_of night.now) → slice_index of.now j < 256 },
    ghost rows: { length (tasks_of night.now) * 96 ≤ length plan.now },
}

impl Content<'_> {
    // How long its sheet is.
    fn len(&self) -> usize
        ensures { result ≡ span (day_of self.now.night.now) self.now.found }
    {
        span_of(self.night, self.found)
    }

    // Puts the loads of the hours.
    fn put_loads(&self, b: &mut [u8])
        requires { hours_of self.now.night.now * 9 ≤ length b.old }
        ensures says { LoadsPut (hours_of self.now.night.now) self.now.loads.now b.new }
        ensures kept { Kept 0 (hours_of self.now.night.now * 9) b.old b.new }
    {
        for (s, load) in self.loads[..self.night.hours()].iter().enumerate() {
            put_load(b, s * 9, *load);
        }
    }

    // Puts the hours of the groups from `p` on.
    fn put_groups(&self, b: &mut [u8], p: usize)
        requires { p + self.now.found * width (hours_of self.now.night.now) ≤ length b.old }
        ensures says { GroupsPut self.now.found (hours_of self.now.night.now) p self.now.groups.now b.new }
        ensures kept { Kept p (p + self.now.found * width (hours_of self.now.night.now)) b.old b.new }
    {
        let hours = self.night.hours();
        let bytes = row_bytes(hours);
        let groups = self.groups;
        for (g, set) in groups[..self.found].iter().enumerate() {
            put_bits(b, p + g * bytes, hours, *set);
        }
    }

    // The amounts of task j, by hours.
    fn row(&self, j: usize) -> &[u64]
        requires { j < length (tasks_of self.now.night.now) }
        ensures long { length result.now ≡ hours_of self.now.night.now }
        ensures each { (s : ℕ) → s < hours_of self.now.night.now → slice_index result.now s ≡ slice_index self.now.plan.now (j * 96 + s) }
    {
        let first = j * 96;
        &self.plan[first..first + self.night.hours()]
    }

    // Puts the groups and the amounts of the tasks from `p` on.
    fn put_tasks(&self, b: &mut [u8], p: usize)
        requires { p + sum (length (tasks_of self.now.night.now)) (row (day_of self.now.night.now)) ≤ length b.old }
        ensures says { TasksPut (length (tasks_of self.now.night.now)) (hours_of self.now.night.now) p (tasks_of self.now.night.now) self.now.of.now self.now.plan.now b.new }
        ensures kept { Kept p (p + sum (length (tasks_of self.now.night.now)) (row (day_of self.now.night.now))) b.old b.new }
    {
        let mut at = p;
        for (j, task) in self.night.tasks().iter().enumerate() {
            at = put_task(b, at, self.of[j], task.hours, self.row(j));
        }
    }

    // Puts the whole sheet.
    fn put(&self, sheet: &mut [u8])
        requires { span (day_of self.now.night.now) self.now.found ≤ length sheet.old }
        ensures says { Says (hours_of self.now.night.now) (tasks_of self.now.night.now) self.now.loads.now self.now.groups.now self.now.found self.now.of.now self.now.plan.now sheet.new }
        ensures kept { Kept 0 (span (day_of self.now.night.now) self.now.found) sheet.old sheet.new }
    {
        let hours = self.night.hours();
        self.put_loads(sheet);
        sheet[hours * 9] = self.found as u8;
        self.put_groups(sheet, hours * 9 + 1);
        self.put_tasks(sheet, hours * 9 + 1 + self.found * row_bytes(hours));
    }
}

// Writes the sheet with these loads by hours, the hours of so many groups, the group of each task, and the amounts of a plan, in which a task's row
// takes 96 places. It says how many bytes it wrote, and leaves those behind them. Where it writes nothing, it says why. What is written of a
// plan made of groups is accepted. What it takes are parameters and no struct, since a caller lends each by itself.
pub fn write(
    night: &Night,
    loads: &[Fraction; 96],
    groups: &[Hours; 96],
    found: usize,
    of: &[usize; 200],
    plan: &[u64],
    sheet: &mut [u8],
) -> Result<usize, Unwritten>
    ensures outcome { MatchResult result (Wrote (hours_of night.now) (tasks_of night.now) loads.now groups.now found of.now plan.now sheet.old sheet.new) (λ e. (sheet.new ≡ sheet.old) × NotWritten (hours_of night.now) (tasks_of night.now) loads.now found of.now plan.now sheet.old (why e)) }
    ensures accepted { IfOk result (λ n. (num den at : ℕ → ℕ) → LevelPlan (hours_of night.now) (tasks_of night.now) loads.now groups.now found of.now plan.now num den at → Accepted (day_of night.now) (take n sheet.new)) }
{
    if !fits(night, loads, found, of) {
        return Err(Unwritten::TooLarge);
    }
    if plan.len() < night.tasks().len() * 96 {
        return Err(Unwritten::ShortPlan);
    }
    let content = Content {
        night,
        loads,
        groups,
        found,
        of,
        plan,
    };
    let len = content.len();
    if sheet.len() < len {
        return Err(Unwritten::ShortSheet);
    }
    content.put(sheet);
    Ok(len)
}
