//! The limits of a round, by number, as the contract of a function that does nothing.
ghost use Rattle.std.specs.Prelude.{◌≡◌, ◌<◌};
ghost use Rattle.raft_log.specs.Batches.{batch_limit};
ghost use Rattle.node_threads.specs.declared.worker_loop.asking.TheConstants.{MOST_ASKED};
ghost use Rattle.node_threads.specs.declared.worker_loop.jobs.TheConstants.{MOST_ALONE};
ghost use Rattle.node_threads.specs.declared.worker_loop.telling.TheConstants.{MOST_UNTOLD};
ghost use Rattle.node_threads.specs.declared.worker_loop.turning.TheConstants.{MOST_APPLIED};

/// How many requests a round asks, how many jobs are done alone, how many entries are applied, and how many notes may
/// be done without a report: fewer than the driver sends before it waits for one.
pub fn limits_of_rounds()
    ensures asked { MOST_ASKED ≡ 16 }
    ensures alone { MOST_ALONE ≡ 16 }
    ensures applied { MOST_APPLIED ≡ 1000 }
    ensures untold { MOST_UNTOLD ≡ 64 }
    ensures fewer { MOST_UNTOLD < batch_limit }
{}
