// Where things stand in the picture, in pixels.
ghost use Rattle.std.specs.Prelude.{◌≡◌, ◌+◌, ◌*◌, ◌<◌, ◌≤◌};

// Where hours begin; names and units stand before.
pub const LEFT: usize = 200;
// How high the highest bar is, and where bars stand, with titles and loads above.
pub const HIGH: usize = 260;

pub const BASE: usize = 400;
// Where the rows of the tasks begin, with hours, groups and a title above.
pub const ROWS: usize = 500;
// The room for the levels, beside the hours.
pub const BESIDE: usize = 310;

// Columns of hours and rows of tasks.
#[derive(Clone, Copy)]
pub struct Frame {
    pub hours: usize,
    pub tasks: usize,
    pub column: usize,
    pub row: usize,
    ghost few: { hours ≤ 96 },
    ghost short: { tasks ≤ 200 },
    ghost wide: { 10 ≤ column },
    ghost narrow: { column ≤ 60 },
    ghost high: { 13 ≤ row },
    ghost low: { row ≤ 18 },
}

// A rectangle within the picture, with room for a load above it.
#[derive(Clone, Copy)]
pub struct Area {
    pub x: usize,
    pub y: usize,
    pub wide: usize,
    pub high: usize,
    ghost left: { x ≤ 6000 },
    ghost room: { 140 ≤ y },
    ghost above: { y ≤ 6000 },
    ghost broad: { wide ≤ 6000 },
    ghost tall: { high ≤ 260 },
}

// How wide the columns are: narrower where there are more, so that 96 hours take 960.
fn column_of(hours: usize) -> usize
    ensures wide { 10 ≤ result }
    ensures narrow { result ≤ 60 }
{
    match hours {
        0..=16 => 60,
        17..=24 => 40,
        25..=32 => 30,
        33..=48 => 20,
        _ => 10,
    }
}

// How high the rows are: lower where there are many.
fn row_of(tasks: usize) -> usize
    ensures high { 13 ≤ result }
    ensures low { result ≤ 18 }
{
    if tasks <= 60 { 18 } else { 13 }
}

impl Frame {
    pub fn new(hours: usize, tasks: usize) -> Frame
        requires { (hours ≤ 96) × (tasks ≤ 200) }
        ensures { (result.hours ≡ hours) × (result.tasks ≡ tasks) }
    {
        Frame {
            hours,
            tasks,
            column: column_of(hours),
            row: row_of(tasks),
        }
    }

    // Where hour s begins.
    pub fn x(self, s: usize) -> usize
        requires { s ≤ 96 }
        ensures value { result ≡ 200 + s * self.column }
        ensures within { result ≤ 5960 }
    {
        LEFT + s * self.column
    }

    // Where the hours end.
    pub fn right(self) -> usize
        ensures value { result ≡ 200 + self.hours * self.column }
        ensures within { result ≤ 5960 }
    {
        self.x(self.hours)
    }

    // Where the row of task j begins.
    pub fn y(self, j: usize) -> usize
        requires { j ≤ 200 }
        ensures value { result ≡ 500 + j * self.row }
        ensures within { result ≤ 4100 }
    {
        ROWS + j * self.row
    }

    // The width of the picture: the hours, or the title where it is wider, and the levels.
    pub fn width(self) -> usize
        ensures { 510 + self.hours * self.column ≤ result }
    {
        self.right().max(LEFT + 300) + BESIDE
    }

    // The height of the picture: the rows of the tasks, or the levels where they are longer.
    pub fn height(self, levels: usize) -> usize
        requires { levels ≤ 5000 }
        ensures rows { 500 + self.tasks * self.row < result }
        ensures levels { levels < result }
    {
        self.y(self.tasks).max(levels) + 20
    }

    // The bar of hour s, which is so high and stands on the base.
    pub fn bar_area(self, s: usize, high: usize) -> Area
        requires { (s < 96) × (high ≤ 260) }
        ensures place { (result.x ≡ 201 + s * self.column) × (result.wide + 2 ≡ self.column) × (result.y + high ≡ 400) × (result.high ≡ high) }
    {
        Area {
            x: self.x(s) + 1,
            y: BASE - high,
            wide: self.column - 2,
            high,
        }
    }

    // The hours from s to before `end` in the row of task j.
    pub fn run_area(self, j: usize, s: usize, end: usize) -> Area
        requires { (j < 200) × ((s ≤ end) × (end ≤ 96)) }
        ensures place { (result.x ≡ 200 + s * self.column) × (result.x + result.wide ≡ 200 + end * self.column) × (result.y ≡ 501 + j * self.row) × (result.high + 2 ≡ self.row) }
    {
        let x = self.x(s);
        Area {
            x,
            y: self.y(j) + 1,
            wide: self.x(end) - x,
            high: self.row - 2,
        }
    }
}
