//! A node with its pass, its record, and where its lines go.
ghost use Rattle.std.specs.Prelude.{◌≡◌, ◌<◌, ◌≤◌, ◌+◌, suc, [], length, map, IfOk, vec_capacity, vec_len};
ghost use Rattle.ether.specs.Plays.{IsFrom};
ghost use Rattle.world_views.specs.Laws.{AreOfOneGroup};
ghost use Rattle.world_views.specs.Views.{carries};
ghost use Rattle.node_cells.specs.declared.phase.Phase.TheVariants.{Up};
ghost use Rattle.node_cells.specs.Books.{room_for};
ghost use Rattle.raft_node.specs.Parts.{keeper};
ghost use Rattle.node_cells.specs.Causes.{HasCause};
ghost use Rattle.node_cells.specs.Cells.{HasHeard, HasMadeRoom, view_in};
ghost use Rattle.node_cells.specs.Copies.{IsCopy, IsKept};
ghost use Rattle.node_cells.specs.Openings.{HasSeenTo, HasTakenIn, IsSameCell};
ghost use Rattle.node_cells.specs.Sending.{to_of};
ghost use Rattle.node_cells.specs.Turns.{HasDelivered, HasTurned, IsGiven};
ghost use Rattle.wire_bytes.specs.Limits.{number_limit};

use crate::book::Book;
use crate::cell_fault::CellFault;
use crate::copying::{addressees, input_copy, input_of, outcome_of};
use crate::for_record::ForRecord;
use crate::handing::hand_all;
use crate::phase::Phase;
use crate::reaching::{asks, larger, reached_after};
use crate::record::{Recording, TurnOutput};
use crate::told_input::ToldInput;
use crate::upstream::Upstream;
use machine_laws::{Hosted, Machine, Marking};
use raft_log::Message;
use raft_node::{Cause, Described, Node, NodeFault, Output};
use recorder::NodeFields;
use stable_store::Stable;
use std::alloc::{AllocError, Global};
use std::marker::Model;
use wire_bytes::Number;
use world_run::Outcome;
use world_views::{Envelope, NodeInput};

mod leaving;
mod marking;
mod playing;
mod reading;
mod restart;
mod starting;
mod together;

pub use starting::start_node;

/// A turn sends at most one message to each node, of which there are at most 7.
const MOST_SENT: usize = 7;

/// A running node: what its worker owns. It has no lock of its own, and no call waits.
///
/// While the node is down the cell shows the state from before the turn, or the refused restart, in which it went down.
/// A look that waits for a mark is played by a list that begins with all that any node had committed when the mark was
/// asked for.
#[derive(Drop)]
pub struct NodeCell<M: Marking, S: Stable<M::Command>, U: Upstream> {
    alloc: Global,
    book: Book<M>,
    node: Node<M, S>,
    upstream: U,
    phase: Phase<M::Command, M::Line, M::Target>,
    refused: u64,
    shown: NodeFields,
    /// The greatest number of a mark that this run asked for, 0 if it asked for none.
    asked: Number,
    /// The greatest number of a mark of this run among what was applied.
    reached: Option<Number>,
}

impl<M: Marking, S: Stable<M::Command>, U: Upstream> Model for NodeCell<M, S, U> {
    ghost use Rattle.raft_node.specs.Hosts.{hosted};
    ghost use Rattle.raft_node.specs.Parts.{keeper};
    ghost use Rattle.ether.specs.Passes.{view_of};
    ghost use Rattle.node_cells.specs.Cells.{CellRoom, IsCell, cell_of};
    ghost use Rattle.node_cells.specs.Marks.{KnowsMarks};

    ghost Value = { CellRoom M.Setup M S M.Command M.Line M.Target M.Effect M.Played U };

    ghost view = { λ c. record {
      parts = cell_of c.book c.node c.upstream c.phase c.refused c.shown;
      room = c.book.room;
    } };

    ghost invariant = { λ c. IsCell (hosted M.blank M.opened M.shut M.heard M.claim M.source
        (M.effects c.book.ether.setup) (M.next_claim c.book.ether.setup)
        (M.playback c.book.ether.setup) M.class)
        (keeper S.saved S.may_stand S.condition)
        (cell_of c.book c.node c.upstream c.phase c.refused c.shown)
        × KnowsMarks M.marked (view_of c.book.pass) c.asked c.reached };
}

impl<M: Marking, S: Stable<M::Command>, U: Upstream> NodeCell<M, S, U> {
    /// One event at the cell's own view: its step, its tick, its posts, its hands.
    ///
    /// Room in the record and tickets come first, then a copy of the input, if turns are recorded, and room for what
    /// the posts give back: if memory runs out there, the cell is unchanged. A node that goes down in its turn stays
    /// down until it is started again, and its event is recorded then.
    pub fn turn(
        &mut self,
        input: NodeInput<M::Command, M::Line>,
    ) -> Result<TurnOutput<M::Command, M::Effect>, CellFault>
        requires heard { HasHeard (view_in self.old.parts) (carries input) }
        ensures turn { HasTurned (⟦<M as Described>⟧.machine self.old.parts.ether.setup) U.tally
            self.old.parts input result self.new.parts }
        ensures cause { HasCause (keeper S.saved S.may_stand S.condition) self.old.parts result
            self.new.parts }
    {
        if let Some(cause) = self.down() {
            return Err(CellFault::Node(NodeFault::Down(cause)));
        }
        self.make_room(0)?;
        let recording = self.recording();
        let Ok(copy) = input_copy(self.alloc, recording, &input) else {
            return Err(CellFault::Memory);
        };
        let Ok(replaced) = Vec::with_capacity(self.alloc, MOST_SENT) else {
            return Err(CellFault::Memory);
        };
        let (input, told) = ToldInput::of(input);
        self.run(recording, input, told, copy, replaced)
    }

    /// Gets tickets for `count` turns and one more, and room in the record for them if turns are recorded.
    fn make_room(&mut self, count: u64) -> Result<(), CellFault>
        ensures { HasMadeRoom (suc count) self.old result self.new }
    {
        self.book.reserve(count)
    }

    /// One event of a node that is up, when there is room for it. The copy is for the record, and
    /// what the posts give back goes into `replaced`.
    fn run(
        &mut self,
        recording: Recording,
        input: NodeInput<M::Command, M::Line>,
        told: ToldInput<M::Command, M::Line, M::Target>,
        copy: Option<NodeInput<M::Command, M::Line>>,
        mut replaced: Vec<Envelope<M::Command>>,
    ) -> Result<TurnOutput<M::Command, M::Effect>, CellFault>
        requires up { self.old.parts.phase ≡ Up }
        requires room { (room_for self.old.parts.recording 1 ≤ self.old.room)
            × (length (view_in self.old.parts).turns < number_limit) }
        requires heard { HasHeard (view_in self.old.parts) (carries input) }
        requires recording { recording ≡ self.old.parts.recording }
        requires told { told ≡ input }
        requires copy { IsCopy recording told copy }
        requires replaced { (replaced.items ≡ []) × (vec_len replaced + 7 ≤ vec_capacity replaced) }
        ensures turn { HasTurned (⟦<M as Described>⟧.machine self.old.parts.ether.setup) U.tally
            self.old.parts input result self.new.parts }
        ensures cause { HasCause (keeper S.saved S.may_stand S.condition) self.old.parts result
            self.new.parts }
    {
        let number = asks::<M>(&input);
        let before = self.node.state().standing.applied;
        match self.node.step(input_of(input)) {
            Ok(output) => {
                let Output {
                    messages,
                    place,
                    effects,
                } = output;
                let Ok((posted_to, effects, outcome)) = outputs::<M>(
                    self.alloc, recording, &messages, place, effects,
                ) else {
                    self.phase = Phase::DownInTurn(told, copy, true);
                    return Err(CellFault::Node(NodeFault::Down(Cause::Memory)));
                };
                self.book.note(told.done(copy), outcome);
                self.book.post_all(messages, &mut replaced);
                self.book.is_whole();
                hand_all::<M, U>(&mut self.upstream, &effects);
                self.shown = NodeFields::of(self.node.state());
                self.asked = larger(self.asked, number);
                let (node, state) = (self.node.id(), self.node.state());
                self.reached = reached_after::<M>(self.reached, node, before, state);
                Ok(TurnOutput {
                    posted_to,
                    replaced,
                    place,
                    effects,
                })
            }
            Err(fault) => {
                if let NodeFault::Refused(refusal) = &fault {
                    let outcome = ForRecord::of(Outcome::Refused(*refusal));
                    self.book.note(told.done(copy), outcome);
                    self.book.is_whole();
                    self.asked = larger(self.asked, number);
                    return Err(CellFault::Node(fault));
                }
                self.phase = Phase::DownInTurn(told, copy, false);
                Err(CellFault::Node(fault))
            }
        }
    }

    /// Takes the message in the mailbox from the node at this place, from 0 on: node 1 has place 0. This is one look.
    pub fn take(&mut self, from: u64) -> Option<Envelope<M::Command>>
        requires { from < self.old.parts.ether.size }
        ensures taken { HasTakenIn self.old.parts from result self.new.parts }
        ensures from { IsFrom from result }
    {
        let came = self.book.take(from);
        self.book.is_whole();
        came
    }

    /// Whether the last message that this node posted to the node at this place, from 0 on, was taken, so that the
    /// mailbox is empty. This is one look, and otherwise the cell is unchanged.
    pub fn is_taken(&mut self, to: u64) -> bool
        requires { to < self.old.parts.ether.size }
        ensures { HasSeenTo self.old.parts to result self.new.parts }
    {
        let taken = self.book.is_taken(to);
        self.book.is_whole();
        taken
    }

    /// Takes the message in the mailbox from the node at this place, from 0 on, and processes its delivery. Nothing if
    /// there is none.
    pub fn deliver(
        &mut self,
        from: u64,
    ) -> Result<Option<TurnOutput<M::Command, M::Effect>>, CellFault>
        requires { from < self.old.parts.ether.size }
        ensures { HasDelivered (⟦<M as Described>⟧.machine self.old.parts.ether.setup) U.tally
            self.old.parts from result self.new.parts }
    {
        let Some(envelope) = self.take(from) else {
            return Ok(None);
        };
        match self.turn(NodeInput::Deliver(envelope)) {
            Ok(output) => Ok(Some(output)),
            Err(fault) => Err(fault),
        }
    }

    /// Two cells of one ether, held together and unchanged: what their nodes did is of one moment of one group.
    pub fn meet(&mut self, other: &mut NodeCell<M, S, U>)
        requires { self.old.parts.ether ≡ other.old.parts.ether }
        ensures one { IsSameCell self.old.parts self.new.parts }
        ensures other { IsSameCell other.old.parts other.new.parts }
        ensures meet { AreOfOneGroup (⟦<M as Described>⟧.machine self.old.parts.ether.setup)
            (view_in self.old.parts) (view_in other.old.parts) }
    {
        self.book.meet(&mut other.book);
        self.book.is_whole();
        other.book.is_whole();
    }
}

/// What is answered and what is recorded of an output: the receivers of its messages, its effects, and what comes out.
fn outputs<M: Hosted>(
    alloc: Global,
    recording: Recording,
    messages: &[Message<M::Command>],
    place: Number,
    effects: Vec<M::Effect>,
) -> Result<
    (
        Vec<u8>,
        Vec<M::Effect>,
        ForRecord<Outcome<M::Effect, M::Played>>,
    ),
    AllocError,
>
    ensures posted { IfOk result (λ r. r.0.items ≡ map to_of messages.now) }
    ensures effects { IfOk result (λ r. r.1 ≡ effects) }
    ensures given { IfOk result (λ r. IsGiven place effects.items r.2.told.value) }
    ensures kept { IfOk result (λ r. IsKept recording r.2) }
{
    let posted_to = addressees(alloc, messages)?;
    let (effects, outcome) = outcome_of(alloc, recording, place, effects)?;
    Ok((posted_to, effects, outcome))
}
