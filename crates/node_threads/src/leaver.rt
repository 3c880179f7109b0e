//! Threads that are joined one by one, each into what the ones before it left.
ghost use Rattle.node_threads.specs.Joins.{CanJoinAll, JoinsAll};

use crate::opener::Opener;
use crate::place::Place;
use crate::worker::Running;
use machine_laws::{Hosted, Marking};
use node_cells::{Closing, Upstream};
use stable_store::Stable;
use std::thread::Threads;

/// A thread that leaves something, which is added to what others left.
pub trait Leaver<C>: Drop {
    /// That it may be added to what others left.
    ghost can_join: { C → Self → Type 0 };

    /// What was left, before and after.
    ghost joins: { C → Self → C → Type 0 };

    /// Waits for the thread.
    fn join_into<R: Threads>(self, rt: &R, left: &mut C)
        requires { can_join left.old self }
        ensures { joins left.old self left.new };
}

impl<M: Marking, S: Stable<M::Command>, U: Upstream, L: Opener<S>> Leaver<Closing<M>>
    for Running<M, S, U, L> {
    ghost use Rattle.raft_node.specs.Parts.{keeper};
    ghost use Rattle.node_threads.specs.Homes.{HasJoined, IsNextHome};
    ghost use Rattle.node_threads.specs.Places.{IsLeftView, place_home};

    ghost can_join = { λ left t. IsNextHome left (place_home t.promise.place.value) };

    ghost joins = { λ old t new. HasJoined (IsLeftView (keeper S.saved S.may_stand S.condition)
        L.gives t.promise.place.value) old new };

    fn join_into<R: Threads>(self, rt: &R, left: &mut Closing<M>) {
        match self.join(rt) {
            Place::Open(cell) => left.close(cell),
            Place::Late(cell, _) => left.close_unopened(cell),
        }
    }
}

/// Joins all threads, in order.
pub fn join_all<R: Threads, C, H: Leaver<C>>(rt: &R, threads: Vec<H>, left: &mut C)
    requires { CanJoinAll H.can_join H.joins left.old threads.items }
    ensures { JoinsAll H.joins left.old threads.items left.new }
{
    for thread in threads {
        thread.join_into(rt, left);
    }
}
