//! The jobs of calls of a node, each with where its answer comes.
ghost use Rattle.std.specs.Prelude.{◌≡◌, IfErr, IfOk};
ghost use Rattle.node_threads.specs.declared.cluster_fault.ClusterFault.TheVariants.{Memory};
ghost use Rattle.node_threads.specs.Jobs.{IsLookAt, IsLookBehind, IsMarkJob, IsRestartJob, IsStatusJob};

use crate::cluster_fault::ClusterFault;
use crate::job::Job;
use crossbeam_channel::{Receiver, bounded};
use machine_laws::{Hosted, Machine};
use node_cells::CellFault;
use node_notes::Status;
use raft_node::Looked;
use std::alloc::Global;

/// Where the answer comes that is a playback, or a fault.
pub type PlayedAnswer<M> = Receiver<Result<Looked<<M as Hosted>::Played>, CellFault>>;

/// A look at a place at a target.
pub fn look_job<M: Hosted>(
    alloc: Global,
    from_place: u64,
    target: M::Target,
) -> Result<(Job<M>, PlayedAnswer<M>), ClusterFault>
    ensures job { IfOk result (λ r. IsLookAt from_place target r.0) }
    ensures fault { IfErr result (λ e. e ≡ Memory) }
{
    let (reply, answer) = bounded(alloc, 1)?;
    Ok((Job::Look(from_place, target, reply), answer))
}

/// A look at a target after the mark of this number.
pub fn late_look_job<M: Hosted>(
    alloc: Global,
    number: u64,
    target: M::Target,
) -> Result<(Job<M>, PlayedAnswer<M>), ClusterFault>
    ensures job { IfOk result (λ r. IsLookBehind number target r.0) }
    ensures fault { IfErr result (λ e. e ≡ Memory) }
{
    let (reply, answer) = bounded(alloc, 1)?;
    Ok((Job::LookAfter(number, target, reply), answer))
}

/// The next mark.
pub fn mark_job<M: Hosted>(
    alloc: Global,
) -> Result<(Job<M>, Receiver<Result<u64, CellFault>>), ClusterFault>
    ensures job { IfOk result (λ r. IsMarkJob r.0) }
    ensures fault { IfErr result (λ e. e ≡ Memory) }
{
    let (reply, answer) = bounded(alloc, 1)?;
    Ok((Job::Mark(reply), answer))
}

/// A restart.
pub fn restart_job<M: Hosted>(
    alloc: Global,
) -> Result<(Job<M>, Receiver<Result<(), CellFault>>), ClusterFault>
    ensures job { IfOk result (λ r. IsRestartJob r.0) }
    ensures fault { IfErr result (λ e. e ≡ Memory) }
{
    let (reply, answer) = bounded(alloc, 1)?;
    Ok((Job::Restart(reply), answer))
}

/// The question for the state of a node.
pub fn status_job<M: Hosted>(alloc: Global) -> Result<(Job<M>, Receiver<Status>), ClusterFault>
    ensures job { IfOk result (λ r. IsStatusJob r.0) }
    ensures fault { IfErr result (λ e. e ≡ Memory) }
{
    let (reply, answer) = bounded(alloc, 1)?;
    Ok((Job::Status(reply), answer))
}
