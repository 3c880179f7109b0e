//! The limits of a journal, as numbers, as the contract of a function that does nothing.
ghost use Rattle.std.specs.Prelude.{◌≡◌, ◌*◌, ◌+◌, ◌≤◌, length};
ghost use Rattle.raft_log.specs.Batches.{batch_limit};
ghost use Rattle.wire_bytes.specs.Limits.{body_limit};
ghost use Rattle.journal_store.specs.declared.find.TheConstants.{PAYLOAD_LIMIT};
ghost use Rattle.journal_store.specs.declared.journal_store.TheConstants.{EMPTY_LEN};

/// The greatest length of a payload, which has room for as many of the longest bodies as are saved at once; and the
/// length of a journal in which nothing is saved.
pub fn limits_of_journals()
    ensures payload { PAYLOAD_LIMIT ≡ 33554432 }
    ensures room { batch_limit * body_limit ≤ PAYLOAD_LIMIT }
    ensures empty { EMPTY_LEN ≡ 9 }
{}
