//! A node of a cluster, as it is called.
ghost use Rattle.std.specs.Prelude.{◌≡◌, IfErr, IfOk};
ghost use Rattle.node_threads.specs.Faults.{IfAnswered, IsNotOfCaller, IsUndelivered};
ghost use Rattle.node_threads.specs.Jobs.{IsAsked, IsLookAt, IsRestartJob, IsStatusJob};
ghost use Rattle.node_threads.specs.declared.job.Job.TheVariants as job;

use crate::cluster_fault::ClusterFault;
use crate::inbox::Inbox;
use crate::job::Job;
use crate::node_handle::jobs::{look_job, restart_job, status_job};
use crossbeam_channel::Receiver;
use machine_laws::{Hosted, Machine};
use node_cells::CellFault;
use node_notes::{Note, Status};
use raft_node::Looked;
use std::alloc::Global;
use std::marker::PhantomData;
use std::sync::Wait;

mod confirming;
mod jobs;

/// A node of a cluster, as it is called. The answer is `Stopped` if its worker is gone.
#[derive(Drop)]
pub struct NodeHandle<'a, M, I> {
    alloc: Global,
    inbox: &'a I,
    machine: PhantomData<M>,
}

impl<'a, M: Hosted, I: Inbox<Job<M>>> NodeHandle<'a, M, I> {
    /// The node of the worker with this inbox.
    pub(crate) fn new(alloc: Global, inbox: &'a I) -> NodeHandle<'a, M, I>
        ensures { result.inbox.now ≡ inbox.now }
    {
        NodeHandle {
            alloc,
            inbox,
            machine: PhantomData,
        }
    }

    /// Sends the node a note; the call does not wait for what comes of it.
    pub fn submit(
        &self,
        rt: &impl Wait,
        note: Note<M::Command, M::Line>,
    ) -> Result<(), ClusterFault>
        ensures told { IfOk result (λ _. I.has_put self.now.inbox.now (job.Note note)) }
        ensures fault { IfErr result IsUndelivered }
    {
        self.inbox.put(rt, Job::Note(note))
    }

    /// A playback of a target, once the node has applied its log up to a place.
    pub fn look(
        &self,
        rt: &impl Wait,
        from_place: u64,
        target: M::Target,
    ) -> Result<Looked<M::Played>, ClusterFault>
        ensures asked { IsAsked (IsLookAt from_place target) (I.has_put self.now.inbox.now) result }
        ensures fault { IsNotOfCaller result }
    {
        let (job, answer) = look_job(self.alloc, from_place, target)?;
        ask(rt, self.inbox, job, &answer)
    }

    /// Starts the node again over its store.
    pub fn restart(&self, rt: &impl Wait) -> Result<(), ClusterFault>
        ensures asked { IsAsked IsRestartJob (I.has_put self.now.inbox.now) result }
        ensures fault { IsNotOfCaller result }
    {
        let (job, answer) = restart_job(self.alloc)?;
        ask(rt, self.inbox, job, &answer)
    }

    /// The state of the node.
    pub fn status(&self, rt: &impl Wait) -> Result<Status, ClusterFault>
        ensures asked { IsAsked IsStatusJob (I.has_put self.now.inbox.now) result }
        ensures fault { IfErr result IsUndelivered }
    {
        let (job, answer) = status_job(self.alloc)?;
        self.inbox.put(rt, job)?;
        match answer.recv(rt) {
            Ok(status) => Ok(status),
            Err(_) => Err(ClusterFault::Stopped),
        }
    }
}

/// The worker's answer to a job that is put into its inbox.
fn ask<J: Drop, I: Inbox<J>, T: Drop>(
    rt: &impl Wait,
    inbox: &I,
    job: J,
    answer: &Receiver<Result<T, CellFault>>,
) -> Result<T, ClusterFault>
    ensures put { IfAnswered result (I.has_put inbox.now job) }
    ensures fault { IsNotOfCaller result }
{
    inbox.put(rt, job)?;
    match answer.recv(rt) {
        Ok(Ok(given)) => Ok(given),
        Ok(Err(fault)) => Err(ClusterFault::from(fault)),
        Err(_) => Err(ClusterFault::Stopped),
    }
}
