//! The limit on readers, as a number, as the contract of a function that does nothing.
ghost use Rattle.std.specs.Prelude.{◌≡◌};
ghost use Rattle.buffer_targets.specs.declared.seen.TheConstants.{READERS};

/// How many names of clients there may be.
pub fn limit_of_readers()
    ensures { READERS ≡ 64 }
{}
