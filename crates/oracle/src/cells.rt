// Rows of numbers, and amounts in rows of 96 hours for each task.
ghost use Rattle.std.specs.Prelude.{◌≡◌, ℕ, ◌+◌, ◌-◌, ◌*◌, ◌^◌, ◌<◌, min, length, ◌≢◌, slice_index, slice_get};
ghost use Rattle.std.specs.Option.{UnwrapsOrElse};

// Where a task's amount of an hour stands among the amounts of all tasks, one row behind another.
pub fn cell(j: usize, s: usize) -> usize
    ensures { j * 96 + s < 2 ^ 64 → result ≡ j * 96 + s }
{
    j.saturating_mul(96).saturating_add(s)
}

// What is done of a task in each hour.
pub type Row = [u64; 96];

// The number at an index, 0 behind the end.
pub fn item<T: Copy + Default>(row: &[T], i: usize) -> T
    ensures { UnwrapsOrElse (slice_get row.now i) T.is_default result }
{
    row.get(i).copied().unwrap_or_default()
}

// Adds to the number at an index. By index, since a proof knows no element after a loan by `get_mut`.
pub fn raise(row: &mut [u64], i: usize, by: u64)
    ensures sum { i < length row.old → slice_index row.new i ≡ min (slice_index row.old i + by) (2 ^ 64 - 1) }
    ensures others { (k : ℕ) → (k ≢ i) → slice_index row.new k ≡ slice_index row.old k }
{
    if i < row.len() {
        row[i] = row[i].saturating_add(by);
    }
}
