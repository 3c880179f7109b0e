//! Where jobs for a worker are put.
ghost use Rattle.std.specs.Prelude.{IfErr, IfOk};
ghost use Rattle.node_threads.specs.Faults.{IsUndelivered};

use crate::cluster_fault::ClusterFault;
use crate::job::put;
use crossbeam_channel::Sender;
use std::sync::Wait;

/// Where jobs for a worker are put. What is proved of callers is proved over any inbox: only `put` says that something
/// was put.
pub trait Inbox<J> {
    /// That this was put there.
    ghost has_put: { Self → J → Type 0 };

    /// `Stopped` if the inbox's worker is gone.
    fn put<R: Wait>(&self, rt: &R, job: J) -> Result<(), ClusterFault>
        ensures put { IfOk result (λ _. has_put self.now job) }
        ensures fault { IfErr result IsUndelivered };
}

impl<J: Drop> Inbox<J> for Sender<J> {
    // no clause says what is in a channel
    ghost has_put = { λ _ _. Unit {0} };

    fn put<R: Wait>(&self, rt: &R, job: J) -> Result<(), ClusterFault> {
        put(rt, self, job)
    }
}
