//! Journals of both versions are read alike.
ghost use Rattle.journal_store.specs.Versions.{AreReadAlike};

use wire_bytes::Wire;

/// A file stands for the same, or is refused in the same way, whichever version follows its name. A journal of the
/// older version therefore goes on as it is, and accepts each change that one of the newer accepts.
pub fn both_versions_are_read_alike<B: Wire>()
    ensures { AreReadAlike B.taken }
{}
