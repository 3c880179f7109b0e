//! The nodes of one process.
ghost use Rattle.std.specs.Prelude.{◌≡◌, ◌-◌, IfOk, Some, length, slice_get};
ghost use Rattle.node_threads.specs.Faults.{IsFound, IsTold};
ghost use Rattle.raft_node.specs.Parts.{keeper};
ghost use Rattle.node_threads.specs.Places.{AreLeft};

use crate::cluster_fault::ClusterFault;
use crate::inlet::Inlet;
use crate::job::{Job, put};
use crate::leaver::join_all;
use crate::node_handle::NodeHandle;
use crate::opener::{NoOpener, Opener};
use crate::worker::Running;
use crossbeam_channel::Sender;
use machine_laws::{Hosted, Machine, Marking};
use node_cells::{Closing, NodeRecord, Upstream};
use node_notes::Note;
use raft_log::NodeId;
use raft_node::Described;
use stable_store::Stable;
use std::alloc::Global;
use std::marker::Model;
use std::sync::Wait;
use std::thread;
use std::thread::Threads;

mod opening;
mod starting;

/// The nodes of one process, each in a thread of its own.
#[derive(Drop)]
pub struct Cluster<M: Marking, S: Stable<M::Command>, U: Upstream, L: Opener<S> = NoOpener> {
    alloc: Global,
    /// Node 1's first.
    inboxes: Vec<Sender<Job<M>>>,
    /// Node 1's first.
    threads: Vec<Running<M, S, U, L>>,
    /// Collects what they leave.
    closing: Closing<M>,
}

impl<M: Marking, S: Stable<M::Command>, U: Upstream, L: Opener<S>> Model for Cluster<M, S, U, L> {
    ghost use Rattle.std.specs.Prelude.{◌≡◌, [], length, map};
    ghost use Rattle.node_threads.specs.Homes.{AllFrom, IsHome};
    ghost use Rattle.node_threads.specs.Places.{ClusterParts, place_home};

    ghost Value = { ClusterParts M S U L M.Action M.Line M.Target M.Played M.Setup M.Command
        M.Effect };

    ghost view = { λ c. record {
      ether = c.closing.ether;
      recording = c.closing.recording;
      places = map (λ t. t.promise.place.value) c.threads.items;
    } };

    ghost invariant = { λ c. (length c.inboxes.items ≡ c.closing.ether.size)
        × (length c.threads.items ≡ c.closing.ether.size) × (c.closing.views ≡ [])
        × AllFrom (λ i t. IsHome c.closing.ether c.closing.recording i
        (place_home t.promise.place.value)) 0 c.threads.items };
}

impl<M: Marking, S: Stable<M::Command>, U: Upstream, L: Opener<S>> Cluster<M, S, U, L> {
    /// A node, to be called.
    pub fn node(&self, node: NodeId) -> Result<NodeHandle<'_, M, Sender<Job<M>>>, ClusterFault>
        ensures { IsFound self.now.ether.size node result }
    {
        let inbox = inbox_of(self.inboxes.as_slice(), node)?;
        Ok(NodeHandle::new(self.alloc, inbox))
    }

    /// Where another thread puts notes for a node.
    pub fn inlet(&self, node: NodeId) -> Result<Inlet<M>, ClusterFault>
        ensures { IsTold self.now.ether.size node result }
    {
        match inbox_of(self.inboxes.as_slice(), node)?.clone() {
            Ok(inbox) => Ok(Inlet {
                alloc: self.alloc,
                inbox,
            }),
            Err(_) => Err(ClusterFault::Memory),
        }
    }

    /// All workers end, and are joined. Returns what the nodes recorded, node 1's first.
    ///
    /// What waits in an inbox by then is done first. A node that was never opened leaves a record with no turns.
    pub fn stop<R: Threads + Wait>(
        self,
        rt: &R,
    ) -> Vec<NodeRecord<M::Command, M::Line, M::Target, M::Effect, M::Played>>
        ensures { AreLeft (⟦<M as Described>⟧.machine self.ether.setup)
            (keeper S.saved S.may_stand S.condition) L.gives self result.items }
    {
        let Cluster {
            inboxes,
            threads,
            closing,
            ..
        } = self;
        let mut closing = closing;
        end_all(rt, inboxes.as_slice());
        join_all(rt, threads, &mut closing);
        closing.finish()
    }
}

/// The inbox of a node's worker, among those of all.
fn inbox_of<I>(inboxes: &[I], node: NodeId) -> Result<&I, ClusterFault>
    ensures which { IfOk result (λ inbox.
        slice_get inboxes.now (node - 1) ≡ Some inbox.now) }
    ensures found { IsFound (length inboxes.now) node result }
{
    match inboxes.get(node.value() as usize - 1) {
        Some(inbox) => Ok(inbox),
        None => Err(ClusterFault::NoNode(node.value())),
    }
}

/// Asks all workers to end.
fn end_all<M: Marking>(rt: &impl Wait, inboxes: &[Sender<Job<M>>]) {
    for inbox in inboxes {
        end(rt, inbox);
    }
}

/// Asks a worker to end, again if memory ran out.
fn end<M: Marking>(rt: &impl Wait, inbox: &Sender<Job<M>>) {
    for _ in rt.forever() {
        match put(rt, inbox, Job::Note(Note::End)) {
            Err(ClusterFault::Memory) => thread::yield_now(),
            _ => break,
        }
    }
}
