//! The start of a cluster.
ghost use Rattle.std.specs.Prelude.{◌≡◌, [], length, IfOk, IfErr, IfSome, map};
ghost use Rattle.node_threads.specs.declared.cluster_fault.ClusterFault.TheVariants.{Memory};
ghost use Rattle.std.specs.Arc.{arc_value};
ghost use Rattle.ether.specs.Passes.{AreNew};
ghost use Rattle.raft_node.specs.Parts.{keeper};
ghost use Rattle.node_threads.specs.Homes.{AllFrom, IsHome, IsUnpaired};
ghost use Rattle.node_threads.specs.Places.{HasBegun, HasStarted, place_home, ready};

use crate::beats::Beats;
use crate::cluster::opening::{Inboxes, make_inboxes, workers};
use crate::cluster::{Cluster, end_all};
use crate::cluster_fault::ClusterFault;
use crate::gate::Gate;
use crate::job::Job;
use crate::opener::{NoOpener, Opener, PartStore};
use crate::outlet::Outlet;
use crate::part::Part;
use crate::task::spawn_task;
use crate::worker::{Running, Worker, WorkerPromise};
use crossbeam_channel::Sender;
use ether::{Ether, Pass};
use machine_laws::{Hosted, Machine, Marking};
use node_cells::{Closing, Recording, Upstream};
use raft_log::GroupSize;
use stable_store::Stable;
use std::alloc::Global;
use std::snapshot::Snapshot;
use std::sync::{Arc, Wait};
use std::thread::{Promise, PromisedHandle, Threads};

impl<M, S, U> Cluster<M, S, U>
where
    M: Marking + Send + Sync + 'static,
    M::Setup: Send + Sync + 'static,
    M::Command: Send + Sync + 'static,
    M::Effect: Send + Sync + 'static,
    M::Line: Send + Sync + 'static,
    M::Target: Send + Sync + 'static,
    M::Played: Send + Sync + 'static,
    M::Action: Send + Sync + 'static,
    S: Stable<M::Command> + Send + 'static,
    U: Upstream + Send + 'static,
{
    /// Starts as many nodes as the group has, each over the store of its part, node 1's first. All
    /// are opened before the first thread begins. If one can't be started, what was started is
    /// joined, and the parts are dropped.
    pub fn start<R, G, O>(
        rt: &R,
        alloc: Global,
        size: GroupSize,
        setup: &M::Setup,
        parts: Vec<Part<S, U, O>>,
        gate: G,
        recording: Recording,
        beats: Beats,
    ) -> Result<Self, ClusterFault>
    where
        R: Threads + Wait + Sync + Send + Copy + 'static,
        G: Gate + Drop + Send + Sync + 'static,
        O: Outlet<M::Effect> + Send + 'static,
        ensures { HasStarted (keeper S.saved S.may_stand S.condition) size setup.now parts.items
            recording result }
    {
        unpaired(size, parts.len())?;
        let parts = all_ready(alloc, parts)?;
        Cluster::start_late(rt, alloc, size, setup, parts, gate, recording, beats)
    }
}

impl<M, S, U, L> Cluster<M, S, U, L>
where
    M: Marking + Send + Sync + 'static,
    M::Setup: Send + Sync + 'static,
    M::Command: Send + Sync + 'static,
    M::Effect: Send + Sync + 'static,
    M::Line: Send + Sync + 'static,
    M::Target: Send + Sync + 'static,
    M::Played: Send + Sync + 'static,
    M::Action: Send + Sync + 'static,
    S: Stable<M::Command> + Send + 'static,
    U: Upstream + Send + 'static,
    L: Opener<S> + Send + 'static,
{
    /// Starts as many nodes as the group has, node 1's first; some of them have no store yet. Those that have one are
    /// opened over it before the first thread begins; if one of them can't be started, what was started is joined, and
    /// the parts are dropped.
    ///
    /// A node without a store is down. Its worker reports that at once, and at each `Note::Restart` or
    /// `NodeHandle::restart` it asks the opener of the node's part for the store, opens the node over it, and from then
    /// on works like every other. Until then a request waits, as at any node that is down; any other note does nothing
    /// and reports `Down`; and its mailboxes are not taken.
    pub fn start_late<R, G, O>(
        rt: &R,
        alloc: Global,
        size: GroupSize,
        setup: &M::Setup,
        parts: Vec<Part<PartStore<S, L>, U, O>>,
        gate: G,
        recording: Recording,
        beats: Beats,
    ) -> Result<Self, ClusterFault>
    where
        R: Threads + Wait + Sync + Send + Copy + 'static,
        G: Gate + Drop + Send + Sync + 'static,
        O: Outlet<M::Effect> + Send + 'static,
        ensures { HasBegun (keeper S.saved S.may_stand S.condition) size setup.now parts.items
            recording result }
    {
        unpaired(size, parts.len())?;
        let ground = make_ground(alloc, size, setup, recording, beats)?;
        let Ground {
            ether,
            passes,
            closing,
            ends,
        } = ground;
        let workers = workers(alloc, &ether, passes, parts, gate, &ends, recording)?;
        Cluster::begin(rt, alloc, workers, ends.inboxes, closing)
    }

    /// Starts the threads of all workers. If one can't be had, the others are joined.
    fn begin<R, G, O>(
        rt: &R,
        alloc: Global,
        workers: Vec<Worker<M, S, U, L, G, O>>,
        inboxes: Vec<Sender<Job<M>>>,
        closing: Closing<M>,
    ) -> Result<Self, ClusterFault>
    where
        R: Threads + Wait + Sync + Send + Copy + 'static,
        G: Gate + Drop + Send + Sync + 'static,
        O: Outlet<M::Effect> + Send + 'static,
        requires inboxes { length inboxes.items ≡ closing.ether.size }
        requires workers { length workers.items ≡ closing.ether.size }
        requires closing { closing.views ≡ [] }
        requires homes { AllFrom (λ i w. IsHome closing.ether closing.recording i
            (place_home w.place)) 0 workers.items }
        ensures ether { IfOk result (λ c. c.ether ≡ closing.ether) }
        ensures recording { IfOk result (λ c. c.recording ≡ closing.recording) }
        ensures places { IfOk result (λ c. c.places ≡ map (λ w. w.place) workers.items) }
        ensures fault { IfErr result (λ e. e ≡ Memory) }
    {
        let mut threads: Vec<Running<M, S, U, L>> = Vec::with_capacity(alloc, workers.len())?;
        for worker in workers {
            let Some(thread) = Cluster::spawn_worker(rt, worker) else {
                call_off(rt, inboxes.as_slice(), threads);
                return Err(ClusterFault::Memory);
            };
            threads.push_reserved(thread);
        }
        Ok(Cluster {
            alloc,
            inboxes,
            threads,
            closing,
        })
    }

    /// The thread of a worker, if one can be had.
    fn spawn_worker<R, G, O>(
        rt: &R,
        worker: Worker<M, S, U, L, G, O>,
    ) -> Option<Running<M, S, U, L>>
    where
        R: Threads + Wait + Sync + Send + Copy + 'static,
        G: Gate + Drop + Send + Sync + 'static,
        O: Outlet<M::Effect> + Send + 'static,
        ensures { IfSome result (λ t. t.promise.place.value ≡ worker.place) }
    {
        let promise = WorkerPromise {
            place: Snapshot::of(&worker.place),
        };
        spawn_task(rt, promise, worker)
    }
}

/// What the nodes of a cluster share before one is opened, with a pass for each.
#[derive(Drop)]
struct Ground<M: Marking> {
    ether: Arc<Ether<M>, Global>,
    passes: Vec<Pass<M::Command, M::Line, M::Target>>,
    closing: Closing<M>,
    ends: Inboxes<Job<M>>,
}

/// What the nodes of a group of this size share.
fn make_ground<M: Marking>(
    alloc: Global,
    size: GroupSize,
    setup: &M::Setup,
    recording: Recording,
    beats: Beats,
) -> Result<Ground<M>, ClusterFault>
    ensures size { IfOk result (λ g. (arc_value g.ether).size ≡ size) }
    ensures setup { IfOk result (λ g. (arc_value g.ether).setup ≡ setup.now) }
    ensures passes { IfOk result (λ g. AreNew (arc_value g.ether) g.passes.items) }
    ensures many { IfOk result (λ g. length g.passes.items ≡ size) }
    ensures closing { IfOk result (λ g. (g.closing.ether ≡ arc_value g.ether)
        × (g.closing.recording ≡ recording) × (g.closing.views ≡ [])) }
    ensures ends { IfOk result (λ g. (length g.ends.inboxes.items ≡ size)
        × (length g.ends.outboxes.items ≡ size)) }
    ensures fault { IfErr result (λ e. e ≡ Memory) }
{
    let Ok((ether, passes)) = Ether::<M>::new(alloc, size, setup) else {
        return Err(ClusterFault::Memory);
    };
    let ether = match Arc::new(alloc, ether) {
        Ok(ether) => ether,
        Err(_) => return Err(ClusterFault::Memory),
    };
    let closing = Closing::new(alloc, &ether, recording)?;
    let ends = make_inboxes(alloc, size, beats)?;
    Ok(Ground {
        ether,
        passes,
        closing,
        ends,
    })
}

/// Parts whose stores are all there.
fn all_ready<S: Drop, U: Drop, O: Drop>(
    alloc: Global,
    parts: Vec<Part<S, U, O>>,
) -> Result<Vec<Part<PartStore<S, NoOpener>, U, O>>, ClusterFault>
    ensures all { IfOk result (λ all. all.items ≡ map ready parts.items) }
    ensures fault { IfErr result (λ e. e ≡ Memory) }
{
    let mut all = Vec::with_capacity(alloc, parts.len())?;
    for part in parts {
        let Part {
            store,
            upstream,
            outlet,
        } = part;
        all.push_reserved(Part {
            store: PartStore::Ready(store),
            upstream,
            outlet,
        });
    }
    Ok(all)
}

/// No fault if there are as many parts as nodes.
fn unpaired(size: GroupSize, parts: usize) -> Result<(), ClusterFault>
    ensures paired { IfOk result (λ _. parts ≡ size) }
    ensures unpaired { IfErr result (IsUnpaired size parts) }
{
    let size = size.value();
    if parts < size as usize {
        return Err(ClusterFault::NoNode(parts as u8 + 1));
    }
    if parts > size as usize {
        return Err(ClusterFault::NoNode(size + 1));
    }
    Ok(())
}

/// Ends all workers, and joins them.
fn call_off<R: Threads + Wait, M: Marking, S: Stable<M::Command>, U: Upstream, L: Opener<S>>(
    rt: &R,
    inboxes: &[Sender<Job<M>>],
    threads: Vec<Running<M, S, U, L>>,
) {
    end_all(rt, inboxes);
    join_each(rt, threads);
}

/// Joins all threads, whatever they leave.
fn join_each<R: Threads, T: Drop, P: Promise<T>>(rt: &R, threads: Vec<PromisedHandle<T, P>>) {
    for thread in threads {
        thread.join(rt);
    }
}
