//! How a worker asks the requests that wait.
ghost use Rattle.std.specs.Prelude.{◌≡◌, ◌≤◌, [], take, true};
ghost use Rattle.raft_log.specs.Batches.{batch_limit};
ghost use Rattle.node_threads.specs.Asking.{HasLeft, HasSeenIf, MayAsk, leader_in, term_in};
ghost use Rattle.node_threads.specs.Forwarding.{asks_first, request_at};
ghost use Rattle.node_threads.specs.Reports.{leads_in};
ghost use Rattle.node_threads.specs.Requests.{last_asked};
ghost use Rattle.node_threads.specs.Together.{AreReady, TakesFront};
ghost use Rattle.node_threads.specs.Waiting.{account_of};
ghost use Rattle.node_threads.specs.Work.{AsksBefore, HasAskedEach, HasAskedOn, HasAskedOne, HasTriedTogether};

use crate::gate::Gate;
use crate::outlet::Outlet;
use crate::worker_loop::WorkerLoop;
use crate::worker_loop::forwarding::{asks_first, request_at};
use crate::worker_loop::gathering::has_some;
use crate::worker_loop::telling::leads;
use machine_laws::{Hosted, Machine, Marking};
use node_cells::{NodeCell, Upstream};
use raft_log::{BATCH_LIMIT, Position};
use raft_node::Described;
use stable_store::Stable;
use std::sync::Wait;
use world_views::NodeInput;

/// The most requests that a round asks one by one: each may need a save of its own, and meanwhile the other nodes wait
/// for what a leader sends after them.
const MOST_ASKED: u64 = 16;

impl<M: Marking, G: Gate + Drop, O: Outlet<M::Effect>> WorkerLoop<M, G, O> {
    /// If the node knows a leader, asks the first request that waits, before it answers its leader: when a leader sends
    /// again and again, an answer is always on its way, and the mailbox holds one message. If it last posted a request,
    /// it answers first: else no answer would come while requests wait.
    pub fn ask_before<R: Wait, S: Stable<M::Command>, U: Upstream>(
        &mut self,
        rt: &R,
        cell: &mut NodeCell<M, S, U>,
    )
        ensures { AsksBefore (⟦<M as Described>⟧.machine cell.old.parts.ether.setup) U.tally
            (asks_first self.old.forwarded (leader_in cell.old.parts))
            (account_of self.old) cell.old.parts (account_of self.new) cell.new.parts }
    {
        let leader = cell.state().standing.position.leader();
        if asks_first(self.forwarded, leader) {
            self.ask_one(rt, cell);
        }
    }

    /// Asks the requests that wait as long as the node may: a leader at most `BATCH_LIMIT` together, any other node one
    /// by one. False if it may ask more.
    pub fn ask_all<R: Wait, S: Stable<M::Command>, U: Upstream>(
        &mut self,
        rt: &R,
        cell: &mut NodeCell<M, S, U>,
    ) -> bool
        ensures { HasAskedOn (⟦<M as Described>⟧.machine cell.old.parts.ether.setup) U.tally
            (account_of self.old) cell.old.parts result (account_of self.new) cell.new.parts }
    {
        if self.ask_together(rt, cell) {
            return !self.requests.has_waiting();
        }
        self.ask_each(rt, cell)
    }

    /// Asks a leader the first `BATCH_LIMIT` of the requests that wait, together. Returns whether there were any.
    fn ask_together<R: Wait, S: Stable<M::Command>, U: Upstream>(
        &mut self,
        rt: &R,
        cell: &mut NodeCell<M, S, U>,
    ) -> bool
        ensures { HasTriedTogether (⟦<M as Described>⟧.machine cell.old.parts.ether.setup) U.tally
            (account_of self.old) result cell.old.parts (account_of self.new) cell.new.parts }
    {
        if !leads(cell) {
            return false;
        }
        let inputs = self.next_asks(cell);
        if !has_some(&inputs) {
            return false;
        }
        self.turn_all(rt, cell, inputs);
        true
    }

    /// The first `BATCH_LIMIT` of the requests that wait, to be asked in the node's term. None if memory runs out, and
    /// then all still wait.
    fn next_asks<S: Stable<M::Command>, U: Upstream>(
        &mut self,
        cell: &NodeCell<M, S, U>,
    ) -> Vec<NodeInput<M::Command, M::Line>>
        ensures front { TakesFront self.old.requests.waiting.items result.items
            self.new.requests.waiting.items }
        ensures ready { leads_in cell.now.parts ≡ true → AreReady result.items cell.now.parts }
        ensures none { result.items ≡ [] → account_of self.new ≡ account_of self.old }
        ensures lost { self.old.requests.lost ≤ self.new.requests.lost }
        ensures asked { (result.items ≡ [] → ⊥) → self.new.requests.asked
            ≡ last_asked (term_in cell.now.parts) (take batch_limit self.old.requests.waiting.items)
            self.old.requests.asked }
        ensures done { self.new.done ≡ self.old.done }
    {
        let term = cell.state().standing.term;
        let count = BATCH_LIMIT.min(self.requests.waiting.len());
        let Ok(mut inputs) = Vec::with_capacity(self.alloc, count) else {
            return Vec::new(self.alloc);
        };
        for _ in 0..count {
            let Some(request) = self.requests.ask(term) else {
                return inputs;
            };
            inputs.push_reserved(NodeInput::Ask(request));
        }
        inputs
    }

    /// Asks the requests that wait one by one, as long as the node may. False if it may ask more.
    fn ask_each<R: Wait, S: Stable<M::Command>, U: Upstream>(
        &mut self,
        rt: &R,
        cell: &mut NodeCell<M, S, U>,
    ) -> bool
        ensures { HasAskedEach (⟦<M as Described>⟧.machine cell.old.parts.ether.setup) U.tally
            (account_of self.old) cell.old.parts result (account_of self.new) cell.new.parts }
    {
        for _ in 0..MOST_ASKED {
            if !self.ask_one(rt, cell) {
                return true;
            }
        }
        false
    }

    /// Asks the first request that waits, if there is one and the node may. Returns whether it did.
    fn ask_one<R: Wait, S: Stable<M::Command>, U: Upstream>(
        &mut self,
        rt: &R,
        cell: &mut NodeCell<M, S, U>,
    ) -> bool
        ensures { HasAskedOne (⟦<M as Described>⟧.machine cell.old.parts.ether.setup) U.tally
            (account_of self.old) result cell.old.parts (account_of self.new) cell.new.parts }
    {
        if !self.requests.has_waiting() {
            return false;
        }
        if !may_ask(cell) {
            return false;
        }
        let term = cell.state().standing.term;
        let Some(body) = self.requests.ask(term) else {
            return false;
        };
        self.turn(rt, cell, NodeInput::Ask(body));
        true
    }

    /// The leader that has not taken a request from its mailbox, if there is one: the mailbox from it is left, since
    /// the answer to its message would replace the request. This says nothing about an older leader.
    pub fn leader_left<S: Stable<M::Command>, U: Upstream>(
        &self,
        cell: &mut NodeCell<M, S, U>,
    ) -> Option<u8>
        ensures { HasLeft (request_at self.now.forwarded (leader_in cell.old.parts))
            cell.old.parts result cell.new.parts }
    {
        let leader = request_at(self.forwarded, cell.state().standing.position.leader())?;
        if has_taken(cell, leader) {
            return None;
        }
        Some(leader)
    }
}

/// Whether the node may ask: it is up, and leads, or knows a leader that took its last message.
fn may_ask<M: Marking, S: Stable<M::Command>, U: Upstream>(cell: &mut NodeCell<M, S, U>) -> bool
    ensures { MayAsk cell.old.parts result cell.new.parts }
{
    if cell.down().is_some() {
        return false;
    }
    match cell.state().standing.position {
        Position::Leader(_) => true,
        Position::Follower(Some(leader)) => has_taken(cell, leader.value()),
        Position::Follower(None) | Position::Candidate => false,
    }
}

/// Whether the node of this number took the last message that was posted to it.
fn has_taken<M: Marking, S: Stable<M::Command>, U: Upstream>(
    cell: &mut NodeCell<M, S, U>,
    node: u8,
) -> bool
    ensures { HasSeenIf node cell.old.parts result cell.new.parts }
{
    if node < 1 || cell.size().value() < node {
        return false;
    }
    cell.is_taken(node as u64 - 1)
}
