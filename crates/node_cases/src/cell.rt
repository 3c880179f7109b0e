//! Cells over the least machine.
mod cells;
mod tests;
pub mod upstream;
