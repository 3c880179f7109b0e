//! What a cell keeps besides its node.
ghost use Rattle.std.specs.Prelude.{◌≡◌, ◌≤◌, ◌<◌, ◌+◌, ◌-◌, ◌*◌, ◌↔◌, IsTrue, OnOk, OnErr, suc, true, [], ◌∷◌, length, map, MatchResult, vec_capacity, vec_len};
ghost use Rattle.ether.specs.Passes.{IsHeard, view_of};
ghost use Rattle.ether.specs.Plays.{IsFrom};
ghost use Rattle.node_cells.specs.Books.{HasNoRoom, HasNoted, HasPosted, HasRoom, HasTaken, IsBook, IsSameBook, HasSeen, KeepsTurn, room_for};
ghost use Rattle.node_cells.specs.Copies.{IsKept};
ghost use Rattle.node_cells.specs.Posts.{GaveBack, MayGiveBack};
ghost use Rattle.node_cells.specs.Restarts.{HasRestarts};
ghost use Rattle.world_views.specs.Laws.{AreOfOneGroup};
ghost use Rattle.node_cells.specs.Sending.{AreWithin, StandFrom, to_of};
ghost use Rattle.world_run.specs.Told.{out_of};
ghost use Rattle.world_views.specs.Own.{own_out};
ghost use Rattle.wire_bytes.specs.Limits.{node_limit, number_limit};

use crate::cell_fault::CellFault;
use crate::for_record::ForRecord;
use crate::record::{NodeTurn, Recording};
use ether::{Ether, Pass};
use machine_laws::{Hosted, Machine};
use raft_log::{GroupSize, Message};
use raft_node::Described;
use std::alloc::Global;
use std::marker::Model;
use std::sync::Arc;
use wire_bytes::Wire;
use world_run::Outcome;
use world_views::{Envelope, NodeEvent};

mod together;

/// A node's pass at its ether, and the record of its turns.
#[derive(Drop)]
pub struct Book<M: Hosted> {
    pub ether: Arc<Ether<M>, Global>,
    pub pass: Pass<M::Command, M::Line, M::Target>,
    pub recording: Recording,
    pub turns: Vec<NodeTurn<M::Command, M::Line, M::Target, M::Effect, M::Played>>,
    /// How many messages were posted.
    pub sent: u64,
}

impl<M: Hosted> Model for Book<M> {
    ghost use Rattle.std.specs.Prelude.{◌-◌, vec_capacity, vec_len};
    ghost use Rattle.std.specs.Arc.{arc_value};
    ghost use Rattle.raft_node.specs.Hosts.{hosted};
    ghost use Rattle.node_cells.specs.Books.{AreOfBook, BookParts};

    ghost Value = { BookParts M.Setup M.Command M.Line M.Target M.Effect M.Played };

    ghost view = { λ b. record {
      ether = arc_value b.ether;
      pass = b.pass;
      recording = b.recording;
      turns = b.turns.items;
      sent = b.sent;
      room = vec_capacity b.turns - vec_len b.turns;
    } };

    ghost invariant = { λ b. AreOfBook (hosted M.blank M.opened M.shut M.heard M.claim M.source
        (M.effects b.ether.value.setup) (M.next_claim b.ether.value.setup)
        (M.playback b.ether.value.setup) M.class) b.ether.value b.pass b.recording b.turns.items
        b.sent };
}

impl<M: Hosted> Book<M> {
    /// Gets tickets for `count` turns and one more, and room in the record for them if turns are recorded.
    pub fn reserve(&mut self, count: u64) -> Result<(), CellFault>
        ensures { MatchResult result (λ _. HasRoom self.old (suc count) self.new)
            (λ e. HasNoRoom self.old (suc count) e self.new) }
    {
        if !self.pass.has_room(count) {
            return Err(CellFault::Spent);
        }
        match self.recording {
            Recording::On => {
                if self.turns.reserve(count as usize + 1).is_err() {
                    return Err(CellFault::Memory);
                }
                Ok(())
            }
            Recording::Off => Ok(()),
        }
    }

    /// Ticks an event of the node, and records it if turns are recorded.
    pub fn note(
        &mut self,
        event: ForRecord<NodeEvent<M::Command, M::Line, M::Target>>,
        outcome: ForRecord<Outcome<M::Effect, M::Played>>,
    )
        requires heard { IsHeard (view_of self.old.pass) event.told.value }
        requires kept { IsKept self.old.recording event × IsKept self.old.recording outcome }
        requires room { (room_for self.old.recording 1 ≤ self.old.room)
            × (length (view_of self.old.pass).turns < number_limit) }
        requires out { (view_of self.old.pass).honest ≡ true →
            out_of (⟦<M as Described>⟧.machine self.old.ether.setup) outcome.told.value
            ≡ own_out (⟦<M as Described>⟧.machine self.old.ether.setup) (view_of self.old.pass).size
            (suc (view_of self.old.pass).node) (view_of self.old.pass).state event.told.value }
        ensures { HasNoted (⟦<M as Described>⟧.machine self.old.ether.setup) self.old
            event.told.value outcome.told.value self.new }
    {
        let ForRecord { told, kept } = event;
        let Ok(ticket) = self.ether.tick(&mut self.pass, told) else {
            unreachable!()
        };
        keep(self.recording, &mut self.turns, ticket, kept, outcome.kept);
    }

    /// Ticks several restarts, and records them if turns are recorded.
    pub fn note_restarts(&mut self, count: u64)
        requires { (room_for self.old.recording count ≤ self.old.room)
            × (length (view_of self.old.pass).turns + count ≤ number_limit) }
        ensures { HasRestarts (⟦<M as Described>⟧.machine self.old.ether.setup) self.old count
            self.new }
    {
        for done in 0..count {
            let _ = done;
            let event = ForRecord::of(NodeEvent::Restart);
            let outcome = ForRecord::of(Outcome::Quiet);
            self.note(event, outcome);
        }
    }

    /// Posts what the node sent. Older messages that were still in the mailboxes are appended to `replaced`.
    pub fn post_all(
        &mut self,
        messages: Vec<Message<M::Command>>,
        replaced: &mut Vec<Envelope<M::Command>>,
    )
        requires within { AreWithin (suc self.old.pass.node) self.old.ether.size messages.items }
        requires stand { (view_of self.old.pass).honest ≡ true
            → StandFrom (view_of self.old.pass).state.sent self.old.sent messages.items }
        requires few { self.old.sent + length messages.items
            ≤ node_limit * length (view_of self.old.pass).turns }
        requires vacant { replaced.old.items ≡ [] }
        requires room { vec_len replaced.old + length messages.items ≤ vec_capacity replaced.old }
        ensures posted { HasPosted (⟦<M as Described>⟧.machine self.old.ether.setup) self.old
            (length messages.items) self.new }
        ensures replaced { GaveBack (view_of self.old.pass) (map to_of messages.items)
            replaced.new.items }
    {
        for message in messages {
            if let Some(older) = self.post(message) {
                replaced.push_reserved(older);
            }
        }
    }

    /// Posts a message that the node sent, with the next number. Returns the older message that was still in the
    /// mailbox.
    fn post(&mut self, message: Message<M::Command>) -> Option<Envelope<M::Command>>
        requires within { AreWithin (suc self.old.pass.node) self.old.ether.size (message ∷ []) }
        requires stand { (view_of self.old.pass).honest ≡ true
            → StandFrom (view_of self.old.pass).state.sent self.old.sent (message ∷ []) }
        requires few { self.old.sent + 1 ≤ node_limit * length (view_of self.old.pass).turns }
        ensures posted { HasPosted (⟦<M as Described>⟧.machine self.old.ether.setup) self.old 1
            self.new }
        ensures older { MayGiveBack (view_of self.old.pass) message.to result }
    {
        self.sent += 1;
        let number = self.sent;
        let envelope = Envelope { number, message };
        self.ether.post(&mut self.pass, envelope)
    }

    /// Whether the mailbox to the node at this place, from 0 on, is empty. This is one look.
    pub fn is_taken(&mut self, to: u64) -> bool
        requires { to < self.old.ether.size }
        ensures { HasSeen self.old to result self.new }
    {
        self.ether.is_taken(&mut self.pass, to)
    }

    /// Takes the message in the mailbox from the node at this place, from 0 on. This is one look.
    pub fn take(&mut self, from: u64) -> Option<Envelope<M::Command>>
        requires { from < self.old.ether.size }
        ensures taken { HasTaken self.old from result self.new }
        ensures from { IsFrom from result }
    {
        self.ether.take(&mut self.pass, from)
    }

    /// Two passes of one ether, held together: what their nodes did is of one moment.
    pub fn meet(&mut self, other: &mut Book<M>)
        requires { self.old.ether ≡ other.old.ether }
        ensures one { IsSameBook self.old self.new }
        ensures other { IsSameBook other.old other.new }
        ensures meet { AreOfOneGroup (⟦<M as Described>⟧.machine self.old.ether.setup)
            (view_of self.old.pass) (view_of other.old.pass) }
    {
        self.ether.meet(&mut self.pass, &mut other.pass);
    }

    /// The pass, and the record.
    pub fn into_parts(
        self,
    ) -> (
        Pass<M::Command, M::Line, M::Target>,
        Vec<NodeTurn<M::Command, M::Line, M::Target, M::Effect, M::Played>>,
    )
        ensures { (result.0 ≡ self.pass) × (result.1.items ≡ self.turns) }
    {
        (self.pass, self.turns)
    }

    /// Does nothing. A book belongs to an opened pass, and what is recorded is its view's.
    pub fn is_whole(&self)
        ensures { IsBook (⟦<M as Described>⟧.machine self.now.ether.setup) self.now }
    {
        let _ = &self.sent;
    }

    /// How many nodes the ether is for.
    pub fn size(&self) -> GroupSize
        ensures { result ≡ self.now.ether.size }
    {
        self.ether.size()
    }
}

/// Keeps a turn with this ticket, if turns are recorded.
fn keep<B: Wire, L: Drop, T: Drop, E: Drop, P: Drop>(
    recording: Recording,
    turns: &mut Vec<NodeTurn<B, L, T, E, P>>,
    ticket: u64,
    event: Option<NodeEvent<B, L, T>>,
    outcome: Option<Outcome<E, P>>,
)
    requires { room_for recording 1 ≤ vec_capacity turns.old - vec_len turns.old }
    ensures kept { KeepsTurn recording turns.old.items ticket event outcome turns.new.items }
    ensures room { vec_capacity turns.new ≡ vec_capacity turns.old }
{
    match recording {
        Recording::On => {
            let Some(event) = event else { return };
            let Some(outcome) = outcome else { return };
            turns.push_reserved(NodeTurn {
                ticket,
                event,
                outcome,
            });
        }
        Recording::Off => {}
    }
}
