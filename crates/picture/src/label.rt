// Titles, and what numbers are about.
use crate::frame::LEFT;
use std::alloc::AllocError;

// A title above the hours.
pub fn write_title(out: &mut String, y: usize, what: &str) -> Result<(), AllocError> {
    writeln!(
        out,
        "<text x=\"{LEFT}\" y=\"{y}\" font-size=\"14\" font-weight=\"bold\">{what}</text>"
    )
}

// What a line or a column of numbers is about.
pub fn write_head(
    out: &mut String,
    x: usize,
    y: usize,
    anchor: &str,
    what: &str,
) -> Result<(), AllocError> {
    writeln!(
        out,
        "<text x=\"{x}\" y=\"{y}\" text-anchor=\"{anchor}\" font-size=\"12\">{what}</text>"
    )
}
