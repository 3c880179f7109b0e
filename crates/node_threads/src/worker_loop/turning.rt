//! The turns of a worker's node.
ghost use Rattle.std.specs.Prelude.{◌≡◌, false};
ghost use Rattle.world_views.specs.Views.{carries};
ghost use Rattle.node_cells.specs.Cells.{HasHeard, view_in};
ghost use Rattle.node_threads.specs.Asking.{leader_in, term_in};
ghost use Rattle.node_threads.specs.Requests.{queue_of};
ghost use Rattle.node_threads.specs.Rounds.{Gathers};
ghost use Rattle.node_threads.specs.Waiting.{AreBack, ComesBack, HaveComeBack, account_of, brought_back};
ghost use Rattle.node_threads.specs.Work.{HasApplied, HasAppliedOn, HasFailed, HasGathered, HasGatheredMark, HasHadTurn, HasMarkedOne};

use crate::gate::{Gate, pass_gate};
use crate::outlet::Outlet;
use crate::worker_loop::WorkerLoop;
use crate::worker_loop::forwarding::{forwarded_after, is_request};
use crate::worker_loop::reported::reported;
use crate::worker_loop::telling::status;
use machine_laws::{Hosted, Machine, Marking};
use node_cells::{CellFault, MarkTurn, NodeCell, TurnOutput, Upstream};
use raft_log::{Kind, Message};
use raft_node::Described;
use stable_store::Stable;
use std::sync::Wait;
use wire_bytes::Copied;
use world_views::{Envelope, NodeInput};

/// The most places that a round applies: meanwhile the other nodes wait for what a leader sends after that.
const MOST_APPLIED: u64 = 1_000;

impl<M: Marking, G: Gate + Drop, O: Outlet<M::Effect>> WorkerLoop<M, G, O> {
    /// One turn of the node. False if it did nothing.
    pub fn turn<R: Wait, S: Stable<M::Command>, U: Upstream>(
        &mut self,
        rt: &R,
        cell: &mut NodeCell<M, S, U>,
        input: NodeInput<M::Command, M::Line>,
    ) -> bool
        requires { HasHeard (view_in cell.old.parts) (carries input) }
        ensures turn { HasHadTurn (⟦<M as Described>⟧.machine cell.old.parts.ether.setup) U.tally
            cell.old.parts input cell.new.parts }
        ensures gathered { HasGathered (⟦<M as Described>⟧.machine cell.old.parts.ether.setup)
            U.tally cell.old.parts input self.old.round self.old.forwarded
            (queue_of self.old.requests) cell.new.parts self.new.round self.new.forwarded
            (queue_of self.new.requests) }
        ensures failed { result ≡ false → HasFailed
            (⟦<M as Described>⟧.machine cell.old.parts.ether.setup) U.tally cell.old.parts input
            cell.new.parts }
        ensures requests { HaveComeBack (account_of self.old) (account_of self.new) }
        ensures contacts { self.new.contacts ≡ self.old.contacts }
        ensures beat { self.new.has_untold_beat ≡ self.old.has_untold_beat }
    {
        if self.round.has_further() {
            self.round.fail(CellFault::Memory);
            return false;
        }
        pass_gate(rt, &*self.gate, self.id, &mut self.turns);
        let is_request = is_request(&input);
        match cell.turn(input) {
            Ok(output) => {
                self.gather(cell, output, is_request);
                true
            }
            Err(fault) => {
                self.round.fail(fault);
                false
            }
        }
    }

    /// The node's next mark. No request that was asked before it comes back after it: what comes back then is the mark.
    pub fn mark<R: Wait, S: Stable<M::Command>, U: Upstream>(
        &mut self,
        rt: &R,
        cell: &mut NodeCell<M, S, U>,
    ) -> Result<u64, CellFault>
        ensures mark { HasMarkedOne (⟦<M as Described>⟧.machine cell.old.parts.ether.setup) U.tally
            M.marked M.mark cell.old.parts result cell.new.parts }
        ensures gathered { HasGatheredMark (⟦<M as Described>⟧.machine cell.old.parts.ether.setup)
            U.tally M.marked M.mark cell.old.parts self.old.round self.old.forwarded
            (queue_of self.old.requests) cell.new.parts self.new.round self.new.forwarded
            (queue_of self.new.requests) }
        ensures requests { HaveComeBack (account_of self.old) (account_of self.new) }
    {
        if self.round.has_further() {
            return Err(CellFault::Memory);
        }
        pass_gate(rt, &*self.gate, self.id, &mut self.turns);
        match cell.mark() {
            Ok(MarkTurn { number, output }) => {
                self.gather(cell, output, true);
                self.requests.settle();
                Ok(number)
            }
            Err(fault) => Err(fault),
        }
    }

    /// Keeps the result of a turn for the end of the round: the effects that a report gives. The turn was a request or
    /// not.
    fn gather<S: Stable<M::Command>, U: Upstream>(
        &mut self,
        cell: &NodeCell<M, S, U>,
        output: TurnOutput<M::Command, M::Effect>,
        is_request: bool,
    )
        ensures gathered { Gathers M.class (term_in cell.now.parts) (leader_in cell.now.parts)
            is_request output self.old.round self.old.forwarded (queue_of self.old.requests)
            self.new.round self.new.forwarded (queue_of self.new.requests) }
        ensures requests { HaveComeBack (account_of self.old) (account_of self.new) }
        ensures contacts { self.new.contacts ≡ self.old.contacts }
        ensures beat { self.new.has_untold_beat ≡ self.old.has_untold_beat }
    {
        let TurnOutput {
            posted_to,
            replaced,
            effects,
            ..
        } = output;
        self.round.wake_each(posted_to.as_slice());
        self.forwarded = forwarded_after(self.forwarded, is_request, posted_to.as_slice());
        for envelope in &replaced {
            self.take_back(cell, envelope);
        }
        self.round.leave(reported::<M>(effects));
    }

    /// A request that was on its way to the leader of this term is first again.
    fn take_back<S: Stable<M::Command>, U: Upstream>(
        &mut self,
        cell: &NodeCell<M, S, U>,
        envelope: &Envelope<M::Command>,
    )
        ensures returned { ComesBack (brought_back (term_in cell.now.parts)
            (leader_in cell.now.parts) self.old.requests.asked envelope.now.message)
            (queue_of self.old.requests) (queue_of self.new.requests) }
        ensures requests { HaveComeBack (account_of self.old) (account_of self.new) }
        ensures round { self.new.round ≡ self.old.round }
        ensures forwarded { self.new.forwarded ≡ self.old.forwarded }
        ensures contacts { self.new.contacts ≡ self.old.contacts }
        ensures beat { self.new.has_untold_beat ≡ self.old.has_untold_beat }
    {
        let standing = cell.state().standing;
        let Message { term, to, kind, .. } = &envelope.message;
        let Kind::Forward(body) = kind else {
            return;
        };
        let Some(leader) = standing.position.leader() else {
            return;
        };
        if *term != standing.term || *to != leader.value() {
            return;
        }
        let Some(note) = self.requests.asked_in(standing.term) else {
            return;
        };
        match body.get().copy(self.alloc) {
            Ok(body) => self.requests.give_back(note, body),
            Err(_) => self.requests.lose_back(note),
        }
    }

    /// Applies until all that is agreed is applied, or a turn does nothing. False if there is more: after
    /// `MOST_APPLIED` places, or if effects are to be reported first.
    pub fn apply_all<R: Wait, S: Stable<M::Command>, U: Upstream>(
        &mut self,
        rt: &R,
        cell: &mut NodeCell<M, S, U>,
    ) -> bool
        ensures applied { HasApplied (⟦<M as Described>⟧.machine cell.old.parts.ether.setup) U.tally
            cell.old.parts cell.new.parts }
        ensures stops { HasAppliedOn (⟦<M as Described>⟧.machine cell.old.parts.ether.setup)
            U.tally cell.old.parts result cell.new.parts }
        ensures requests { HaveComeBack (account_of self.old) (account_of self.new) }
    {
        for count in 0..MOST_APPLIED {
            let _ = count;
            let status = status(cell);
            if status.down.is_some() || status.commit.value() <= status.applied.value() {
                return true;
            }
            if !self.turn(rt, cell, NodeInput::Apply) {
                return !self.round.has_further();
            }
        }
        false
    }
}
