//! Cells that mark places and wait for their marks.
mod cells;
mod noting;
mod tests;
