// Sheets that are right and sheets that are wrong.
mod accepted;
mod changed;
mod lengths;
mod numbers;
mod refused;
mod small;
mod uneven;
mod written;
