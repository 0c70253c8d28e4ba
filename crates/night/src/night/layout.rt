// Where the parts of a night stand in its bytes.
ghost use Rattle.std.specs.Prelude.{◌≡◌, ◌<◌};
ghost use Rattle.night.specs.Format.{width, place};

// How many bytes a row of so many hours takes.
pub(super) fn row_width(hours: usize) -> usize
    ensures { result ≡ width hours }
{
    hours.div_ceil(8)
}

// Where the bytes of task j begin, in a night of so many hours.
pub(super) fn task_place(hours: usize, j: usize) -> usize
    requires hours_bound { hours < 256 }
    requires j_bound { j < 256 }
    ensures { result ≡ place (width hours) j }
{
    2 + j * (4 + row_width(hours))
}
