//! The workers of a cluster. A node whose store is there is opened before any thread begins.
ghost use Rattle.std.specs.Prelude.{◌≡◌, ◌<◌, ◌≤◌, [], None, false, suc, length, IfOk, IfErr};
ghost use Rattle.std.specs.Arc.{arc_value};
ghost use Rattle.node_threads.specs.declared.cluster_fault.ClusterFault.TheVariants.{Memory};
ghost use Rattle.ether.specs.Passes.{AreNew};
ghost use Rattle.node_cells.specs.Unopened.{IsUntouched};
ghost use Rattle.raft_node.specs.Parts.{keeper};
ghost use Rattle.node_threads.specs.Homes.{AllFrom};
ghost use Rattle.node_threads.specs.Places.{IsBegunBy, IsBegunOver, IsNoBeginning, IsNotBegun};
ghost use Rattle.node_threads.specs.Waiting.{account_of};

use crate::beats::Beats;
use crate::cluster_fault::ClusterFault;
use crate::gate::Gate;
use crate::job::Job;
use crate::opener::{Opener, PartStore};
use crate::outlet::Outlet;
use crate::part::Part;
use crate::place::Place;
use crate::worker::Worker;
use crate::worker_loop::WorkerLoop;
use crate::worker_loop::requests::Requests;
use crate::worker_loop::round::Round;
use crossbeam_channel::{Receiver, Sender, unbounded};
use ether::{Ether, Pass};
use machine_laws::{Hosted, Machine, Marking};
use node_cells::{NodeCell, Recording, UnopenedCell, Upstream};
use raft_log::{GroupSize, NodeId};
use stable_store::Stable;
use std::alloc::Global;
use std::sync::Arc;
use wire_bytes::Number;

/// The two ends of the inboxes of all workers, node 1's first.
#[derive(Drop)]
pub struct Inboxes<J: Drop> {
    pub beats: Beats,
    pub inboxes: Vec<Sender<J>>,
    pub outboxes: Vec<Receiver<J>>,
}

/// The workers of all nodes, node 1's first: each node whose store is there is opened over it.
pub fn workers<
    M: Marking,
    S: Stable<M::Command>,
    U: Upstream,
    L: Opener<S>,
    G: Gate + Drop,
    O: Outlet<M::Effect>,
>(
    alloc: Global,
    ether: &Arc<Ether<M>, Global>,
    passes: Vec<Pass<M::Command, M::Line, M::Target>>,
    parts: Vec<Part<PartStore<S, L>, U, O>>,
    gate: G,
    ends: &Inboxes<Job<M>>,
    recording: Recording,
) -> Result<Vec<Worker<M, S, U, L, G, O>>, ClusterFault>
    requires passes { AreNew (arc_value ether.now) passes.items }
    requires parts { length parts.items ≡ length passes.items }
    requires size { length passes.items ≡ (arc_value ether.now).size }
    requires ends { length ends.now.outboxes.items ≡ (arc_value ether.now).size }
    ensures begun { IfOk result (λ ws. AllFrom (λ i w. IsBegunOver
        (keeper S.saved S.may_stand S.condition) (arc_value ether.now) recording parts.items i
        w.place) 0 ws.items) }
    ensures all { IfOk result (λ ws. length ws.items ≡ (arc_value ether.now).size) }
    ensures fault { IfErr result (IsNoBeginning (keeper S.saved S.may_stand S.condition)
        (arc_value ether.now).size (arc_value ether.now).setup parts.items) }
{
    let gate = match Arc::new(alloc, gate) {
        Ok(gate) => gate,
        Err(_) => return Err(ClusterFault::Memory),
    };
    let mut workers = Vec::new(alloc);
    let mut parts = parts.into_iter();
    for pass in passes {
        let Some(part) = parts.next() else {
            unreachable!()
        };
        let worker = match begin_worker(alloc, ether, pass, part, &gate, ends, recording) {
            Ok(worker) => worker,
            Err(fault) => return Err(fault),
        };
        if workers.push(worker).is_err() {
            return Err(ClusterFault::Memory);
        }
    }
    Ok(workers)
}

/// The worker of a new pass, with the node of its part.
fn begin_worker<
    M: Marking,
    S: Stable<M::Command>,
    U: Upstream,
    L: Opener<S>,
    G: Drop,
    O: Outlet<M::Effect>,
>(
    alloc: Global,
    ether: &Arc<Ether<M>, Global>,
    pass: Pass<M::Command, M::Line, M::Target>,
    part: Part<PartStore<S, L>, U, O>,
    gate: &Arc<G>,
    ends: &Inboxes<Job<M>>,
    recording: Recording,
) -> Result<Worker<M, S, U, L, G, O>, ClusterFault>
    requires pass { IsUntouched (arc_value ether.now) pass }
    requires ends { pass.node < length ends.now.outboxes.items }
    ensures begun { IfOk result (λ w. IsBegunBy (keeper S.saved S.may_stand S.condition)
        (arc_value ether.now) recording pass part.store part.upstream w.place) }
    ensures fault { IfErr result (IsNotBegun (keeper S.saved S.may_stand S.condition)
        (arc_value ether.now).size (arc_value ether.now).setup (suc pass.node) part.store) }
{
    let Part {
        store,
        upstream,
        outlet,
    } = part;
    let Ok(ether) = Arc::try_clone(ether) else {
        return Err(ClusterFault::Memory);
    };
    ether.size().value();
    let id = NodeId::new(pass.node() as u8 + 1);
    let inbox = outbox_of(ends, id)?;
    let worker_loop = worker_loop(alloc, id, gate, outlet, ends)?;
    let place = place_of(alloc, ether, pass, store, upstream, recording)?;
    Ok(Worker {
        place,
        inbox,
        worker_loop,
    })
}

/// The node of a new pass: opened, if its store is there.
fn place_of<M: Marking, S: Stable<M::Command>, U: Upstream, L: Opener<S>>(
    alloc: Global,
    ether: Arc<Ether<M>, Global>,
    pass: Pass<M::Command, M::Line, M::Target>,
    store: PartStore<S, L>,
    upstream: U,
    recording: Recording,
) -> Result<Place<M, S, U, L>, ClusterFault>
    requires { IsUntouched (arc_value ether) pass }
    ensures begun { IfOk result (IsBegunBy (keeper S.saved S.may_stand S.condition)
        (arc_value ether) recording pass store upstream) }
    ensures fault { IfErr result (IsNotBegun (keeper S.saved S.may_stand S.condition)
        (arc_value ether).size (arc_value ether).setup (suc pass.node) store) }
{
    match store {
        PartStore::Ready(store) => {
            match NodeCell::open(alloc, ether, pass, store, upstream, recording) {
                Ok(cell) => Ok(Place::Open(cell)),
                Err(fault) => Err(ClusterFault::from(fault)),
            }
        }
        PartStore::Late(opener) => {
            let cell = UnopenedCell::new(alloc, ether, pass, upstream, recording);
            Ok(Place::Late(cell, opener))
        }
    }
}

/// The receiving end of this node's inbox.
fn outbox_of<J: Drop>(ends: &Inboxes<J>, id: NodeId) -> Result<Receiver<J>, ClusterFault>
    requires { id ≤ length ends.now.outboxes.items }
    ensures { IfErr result (λ e. e ≡ Memory) }
{
    let outbox = &ends.outboxes[id.value() as usize - 1];
    match outbox.clone() {
        Ok(outbox) => Ok(outbox),
        Err(_) => Err(ClusterFault::Memory),
    }
}

/// What the worker of this node has besides the node and its inbox.
fn worker_loop<M: Marking, G: Drop, O: Outlet<M::Effect>>(
    alloc: Global,
    id: NodeId,
    gate: &Arc<G>,
    outlet: O,
    ends: &Inboxes<Job<M>>,
) -> Result<WorkerLoop<M, G, O>, ClusterFault>
    ensures fault { IfErr result (λ e. e ≡ Memory) }
    ensures account { IfOk result (λ w. account_of w
        ≡ record { done = 0; requests = record { waiting = []; asked = None; lost = 0 } }) }
    ensures waits { IfOk result (λ w. w.may_wait ≡ false) }
{
    let others = clones(&ends.inboxes)?;
    let Ok(gate) = Arc::try_clone(gate) else {
        return Err(ClusterFault::Memory);
    };
    Ok(WorkerLoop {
        alloc,
        id,
        others,
        gate,
        outlet,
        beats: ends.beats,
        turns: 0,
        done: 0,
        contacts: 0,
        requests: Requests::new(alloc),
        forwarded: None,
        round: Round::new(alloc),
        told: None,
        seen: Number::new(0),
        has_untold_beat: false,
        beaten: None,
        may_wait: false,
    })
}

/// More senders to the same inboxes.
fn clones<T: Drop>(inboxes: &Vec<Sender<T>>) -> Result<Vec<Sender<T>>, ClusterFault>
    ensures { IfErr result (λ e. e ≡ Memory) }
{
    Ok(inboxes.clone()?)
}

/// The two ends of an inbox for each node.
pub fn make_inboxes<J: Drop>(
    alloc: Global,
    size: GroupSize,
    beats: Beats,
) -> Result<Inboxes<J>, ClusterFault>
    ensures all { IfOk result (λ ends. (length ends.inboxes.items ≡ size)
        × (length ends.outboxes.items ≡ size)) }
    ensures fault { IfErr result (λ e. e ≡ Memory) }
{
    let mut inboxes = Vec::new(alloc);
    let mut outboxes = Vec::new(alloc);
    for _ in 0..size.value() {
        let (inbox, outbox) = unbounded(alloc)?;
        if inboxes.push(inbox).is_err() || outboxes.push(outbox).is_err() {
            return Err(ClusterFault::Memory);
        }
    }
    Ok(Inboxes {
        beats,
        inboxes,
        outboxes,
    })
}
