//! The worker of a node.
ghost use Rattle.raft_node.specs.Parts.{keeper};
ghost use Rattle.node_threads.specs.Places.{HasWorked};

use crate::gate::Gate;
use crate::job::Job;
use crate::opener::Opener;
use crate::outlet::Outlet;
use crate::place::Place;
use crate::task::Task;
use crate::worker_loop::WorkerLoop;
use crossbeam_channel::Receiver;
use machine_laws::{Hosted, Machine, Marking};
use node_cells::Upstream;
use stable_store::Stable;
use std::snapshot::Snapshot;
use std::sync::Wait;
use std::thread::{Promise, PromisedHandle};

/// The worker of a node, which alone has it, and takes from its inbox.
#[derive(Drop)]
pub struct Worker<
    M: Marking,
    S: Stable<M::Command>,
    U: Upstream,
    L: Opener<S>,
    G: Drop,
    O: Outlet<M::Effect>,
> {
    pub place: Place<M, S, U, L>,
    pub inbox: Receiver<Job<M>>,
    pub worker_loop: WorkerLoop<M, G, O>,
}

impl<M, S, U, L, G, O> Task for Worker<M, S, U, L, G, O>
where
    M: Marking + Send + Sync + 'static,
    M::Setup: Send + Sync + 'static,
    M::Command: Send + Sync + 'static,
    M::Effect: Send + Sync + 'static,
    M::Line: Send + Sync + 'static,
    M::Target: Send + Sync + 'static,
    M::Played: Send + Sync + 'static,
    M::Action: Send + Sync + 'static,
    S: Stable<M::Command> + Send + 'static,
    U: Upstream + Send + 'static,
    L: Opener<S> + Send + 'static,
    G: Gate + Drop + Send + Sync + 'static,
    O: Outlet<M::Effect> + Send + 'static,
{
    ghost use Rattle.raft_node.specs.Parts.{keeper};
    ghost use Rattle.node_threads.specs.Places.{HasWorked};

    type Left = Place<M, S, U, L>;

    ghost leaves = { λ worker left. HasWorked (keeper S.saved S.may_stand S.condition) L.gives
        worker.place left };

    fn run<R: Wait>(self, rt: &R) -> Place<M, S, U, L> {
        let Worker {
            place,
            inbox,
            worker_loop,
        } = self;
        let mut worker_loop = worker_loop;
        let mut inbox = inbox;
        match place {
            Place::Open(cell) => worker_loop.work_open(rt, cell, &mut inbox),
            Place::Late(cell, opener) => worker_loop.work_late(rt, cell, opener, &mut inbox),
        }
    }
}

/// What a worker leaves of the node that it began with.
#[derive(Drop)]
pub struct WorkerPromise<M: Marking, S: Stable<M::Command>, U: Upstream, L: Opener<S>> {
    pub place: Snapshot<Place<M, S, U, L>>,
}

impl<M: Marking, S: Stable<M::Command>, U: Upstream, L: Opener<S>> Promise<Place<M, S, U, L>>
    for WorkerPromise<M, S, U, L> {
    ghost use Rattle.raft_node.specs.Parts.{keeper};
    ghost use Rattle.node_threads.specs.Places.{HasWorked};

    ghost kept_by = { λ promise left. HasWorked (keeper S.saved S.may_stand S.condition) L.gives
        promise.place.value left };
}

/// The thread of a worker, which leaves its node.
pub type Running<M, S, U, L> = PromisedHandle<Place<M, S, U, L>, WorkerPromise<M, S, U, L>>;
