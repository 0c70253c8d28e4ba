// Plans as pictures: an SVG for the eyes, and bars of characters for the terminal.
#![tactic(auto)]

pub mod bars;
mod chart;
mod columns;
pub mod drawn;
pub mod escape;
mod frame;
mod label;
mod length;
mod levels;
mod rows;
mod scale;
pub mod svg;
