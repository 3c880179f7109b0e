//! The limits of logs and messages, as numbers, as the contract of a function that does nothing.
ghost use Rattle.std.specs.Prelude.{◌≡◌, ◌≤◌};
ghost use Rattle.raft_log.specs.Batches.{batch_limit};
ghost use Rattle.raft_log.specs.Logs.{entry_limit};

/// How many entries a log may have, and how many may be sent, saved or done at once.
pub fn limits_of_logs()
    ensures entries { entry_limit ≡ 1000000 }
    ensures batch { batch_limit ≡ 256 }
{}
