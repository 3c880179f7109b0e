//! What goes into the record of a cell, if turns are recorded.
ghost use Rattle.std.specs.Prelude.{◌≡◌, Some};

use std::snapshot::Snapshot;

/// A value of the record: clauses see it always, and the value itself exists if turns are recorded.
#[derive(Drop)]
pub struct ForRecord<T> {
    pub told: Snapshot<T>,
    pub kept: Option<T>,
}

impl<T> ForRecord<T> {
    /// A value that exists anyway.
    pub fn of(value: T) -> Self
        ensures { (result.told.value ≡ value) × (result.kept ≡ Some value) }
    {
        ForRecord {
            told: Snapshot::of(&value),
            kept: Some(value),
        }
    }
}
