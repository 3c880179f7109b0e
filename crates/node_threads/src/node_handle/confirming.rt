//! Looks that show all that was committed before.
ghost use Rattle.std.specs.Prelude.{◌≡◌, false, IfOk};
ghost use Rattle.node_threads.specs.Faults.{IsNotOfCaller, comes_early, is_early};
ghost use Rattle.node_threads.specs.Jobs.{IsAsked, IsLookBehind, IsLookBehindSome, IsMarkJob, IsPut};

use crate::cluster_fault::ClusterFault;
use crate::inbox::Inbox;
use crate::job::Job;
use crate::node_handle::jobs::{late_look_job, mark_job};
use crate::node_handle::{NodeHandle, ask};
use machine_laws::{Hosted, Machine};
use node_steps::Refusal;
use raft_node::{Looked, NodeFault};
use std::sync::Wait;
use std::thread;
use wire_bytes::Copied;

/// How many looks come too early before a new mark is asked for.
const MOST_LOOKS: u64 = 100_000;

impl<M: Hosted, I: Inbox<Job<M>>> NodeHandle<'_, M, I> {
    /// A playback of a target that shows all that any node had committed when this was called: the node marks a place,
    /// and is looked at once it has applied its mark.
    ///
    /// A new mark is asked for if the node knows no leader, and after each 100,000 looks that come
    /// too early, since a mark may be lost on its way to the leader. It does not return before
    /// that. Another thread has to send the leader beats meanwhile, as by an `Inlet`: nothing is
    /// agreed on without them.
    pub fn confirmed(
        &self,
        rt: &impl Wait,
        target: M::Target,
    ) -> Result<Looked<M::Played>, ClusterFault>
        ensures asked { IfOk result (λ _.
            IsPut (IsLookBehindSome target) (I.has_put self.now.inbox.now)) }
        ensures fault { IsNotOfCaller result }
        ensures waited { is_early result ≡ false }
    {
        for _ in rt.forever() {
            let outcome = self.look_at_mark(rt, &target);
            if !is_early(&outcome) {
                return outcome;
            }
            thread::yield_now();
        }
        Err(ClusterFault::Stopped)
    }

    /// A look at the node's next mark, or a fault if that is not applied after the most looks.
    fn look_at_mark(
        &self,
        rt: &impl Wait,
        target: &M::Target,
    ) -> Result<Looked<M::Played>, ClusterFault>
        ensures asked { IfOk result (λ _.
            IsPut (IsLookBehindSome target.now) (I.has_put self.now.inbox.now)) }
        ensures fault { IsNotOfCaller result }
    {
        let number = self.mark(rt)?;
        for _ in 1..MOST_LOOKS {
            let outcome = self.look_after(rt, number, target);
            if !is_early(&outcome) {
                return outcome;
            }
            thread::yield_now();
        }
        self.look_after(rt, number, target)
    }

    /// The node asks for its next mark: the mark's number.
    fn mark(&self, rt: &impl Wait) -> Result<u64, ClusterFault>
        ensures asked { IsAsked IsMarkJob (I.has_put self.now.inbox.now) result }
        ensures fault { IsNotOfCaller result }
    {
        let (job, answer) = mark_job(self.alloc)?;
        ask(rt, self.inbox, job, &answer)
    }

    /// A playback of a target at a node that has applied its mark of this number.
    fn look_after(
        &self,
        rt: &impl Wait,
        number: u64,
        target: &M::Target,
    ) -> Result<Looked<M::Played>, ClusterFault>
        ensures asked { IsAsked (IsLookBehind number target.now) (I.has_put self.now.inbox.now)
            result }
        ensures fault { IsNotOfCaller result }
    {
        let target = target.copy(self.alloc)?;
        let (job, answer) = late_look_job(self.alloc, number, target)?;
        ask(rt, self.inbox, job, &answer)
    }
}

/// Whether there was no leader to ask, or the mark was not applied.
fn is_early<T>(outcome: &Result<T, ClusterFault>) -> bool
    ensures { result ≡ is_early outcome.now }
{
    match outcome {
        Ok(_) => false,
        Err(fault) => comes_early(fault),
    }
}

/// Whether a fault says that the node knows no leader, or that it has not applied enough.
fn comes_early(fault: &ClusterFault) -> bool
    ensures { result ≡ comes_early fault.now }
{
    matches!(
        fault,
        ClusterFault::Node(NodeFault::Refused(Refusal::NoLeader | Refusal::Behind(_)))
    )
}
