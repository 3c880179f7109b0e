//! The messages that come to a worker's node.
ghost use Rattle.std.specs.Prelude.{◌≡◌, ◌<◌, ◌+◌, ◌^◌, ◌-◌, ◌||◌, min, IfSome, length, if◌then◌else◌};
ghost use Rattle.world_views.specs.Views.{carries};
ghost use Rattle.node_cells.specs.Cells.{HasHeard, view_in};
ghost use Rattle.node_threads.specs.Rounds.{answerer, is_behind, is_led, woken_by};
ghost use Rattle.node_threads.specs.Waiting.{HaveComeBack, account_of};
ghost use Rattle.node_threads.specs.Work.{Does, HasLookedIn, HasTaken, HasTakenBut, takes_unless};

use crate::gate::Gate;
use crate::outlet::Outlet;
use crate::worker_loop::WorkerLoop;
use crate::worker_loop::forwarding::is_left;
use crate::worker_loop::telling::wake;
use machine_laws::{Hosted, Machine, Marking};
use node_cells::{NodeCell, Upstream};
use raft_log::{Kind, Message};
use raft_node::Described;
use stable_store::Stable;
use std::sync::Wait;
use wire_bytes::Wire;
use world_views::NodeInput;

impl<M: Marking, G: Gate + Drop, O: Outlet<M::Effect>> WorkerLoop<M, G, O> {
    /// Takes each mailbox once, by rising number of the sender, except one that is left.
    pub fn take_all<R: Wait, S: Stable<M::Command>, U: Upstream>(
        &mut self,
        rt: &R,
        cell: &mut NodeCell<M, S, U>,
        left: Option<u8>,
    )
        ensures taken { HasTakenBut (⟦<M as Described>⟧.machine cell.old.parts.ether.setup) U.tally
            left cell.old.parts cell.new.parts }
        ensures requests { HaveComeBack (account_of self.old) (account_of self.new) }
    {
        let size = cell.size().value();
        for from in 0..size {
            self.take_unless(rt, cell, is_left(left, from), from as u64);
        }
    }

    /// Takes the mailbox from the node at this place, if there is one and it is not left.
    fn take_unless<R: Wait, S: Stable<M::Command>, U: Upstream>(
        &mut self,
        rt: &R,
        cell: &mut NodeCell<M, S, U>,
        is_left: bool,
        from: u64,
    )
        ensures taken { from < cell.old.parts.ether.size
            → Does (⟦<M as Described>⟧.machine cell.old.parts.ether.setup) U.tally
            (takes_unless is_left from) cell.old.parts cell.new.parts }
        ensures requests { HaveComeBack (account_of self.old) (account_of self.new) }
    {
        if !is_left {
            self.take_from(rt, cell, from);
        }
    }

    /// Takes the message in the mailbox from the node at this place, from 0 on, if there is one, and processes its
    /// delivery.
    fn take_from<R: Wait, S: Stable<M::Command>, U: Upstream>(
        &mut self,
        rt: &R,
        cell: &mut NodeCell<M, S, U>,
        from: u64,
    )
        ensures taken { from < cell.old.parts.ether.size
            → HasLookedIn (⟦<M as Described>⟧.machine cell.old.parts.ether.setup) U.tally
            cell.old.parts from cell.new.parts }
        ensures requests { HaveComeBack (account_of self.old) (account_of self.new) }
    {
        if cell.size().value() as u64 <= from {
            return;
        }
        let Some(input) = next_from(cell, from) else {
            return;
        };
        if let NodeInput::Deliver(envelope) = &input {
            self.notice(rt, cell, &envelope.message);
        }
        self.turn(rt, cell, input);
    }

    /// What the worker itself makes of a message: it counts messages of a leader, and wakes a worker that waits until
    /// this message was taken. After a request the next one follows at once; after an answer it may wait for the end of
    /// the round.
    fn notice<R: Wait, S: Stable<M::Command>, U: Upstream>(
        &mut self,
        rt: &R,
        cell: &NodeCell<M, S, U>,
        message: &Message<M::Command>,
    )
        ensures contacts { self.new.contacts
            ≡ (if is_led message.now cell.now.parts.node.state.standing.term
            then min (self.old.contacts + 1) (2 ^ 64 - 1) else self.old.contacts) }
        ensures behind { self.new.round.is_behind ≡ (self.old.round.is_behind
            || is_behind message.now cell.now.parts.node.state.standing.term
            (length cell.now.parts.node.state.log)) }
        ensures woken { self.new.round.woken
            ≡ woken_by self.old.round.woken (answerer message.now.kind message.now.from) }
        ensures requests { account_of self.new ≡ account_of self.old }
    {
        match &message.kind {
            Kind::Forward(_) => wake(rt, self.others.as_slice(), message.from),
            Kind::Append(_) => {
                if is_led(message, cell.state().standing.term.value()) {
                    self.contacts = self.contacts.saturating_add(1);
                }
            }
            Kind::AppendReply { ok, place } => {
                self.round.wake(message.from);
                let state = cell.state();
                if message.term == state.standing.term && (!*ok || *place < state.log.len()) {
                    self.round.is_behind = true;
                }
            }
            Kind::RequestVote { .. } | Kind::Vote { .. } => {}
        }
    }
}

/// The delivery of the message in the mailbox from the node at this place, from 0 on, if there is one.
fn next_from<M: Marking, S: Stable<M::Command>, U: Upstream>(
    cell: &mut NodeCell<M, S, U>,
    from: u64,
) -> Option<NodeInput<M::Command, M::Line>>
    requires { from < cell.old.parts.ether.size }
    ensures taken { HasTaken (⟦<M as Described>⟧.machine cell.old.parts.ether.setup)
        cell.old.parts from result cell.new.parts }
    ensures heard { IfSome result (λ input. HasHeard (view_in cell.new.parts) (carries input)) }
{
    match cell.take(from) {
        Some(envelope) => Some(NodeInput::Deliver(envelope)),
        None => None,
    }
}

/// Whether a message is one of the leader of this term or of a later one.
fn is_led<B: Wire>(message: &Message<B>, term: u64) -> bool
    ensures { result ≡ is_led message.now term }
{
    match &message.kind {
        Kind::Append(_) => message.term.value() >= term,
        _ => false,
    }
}
