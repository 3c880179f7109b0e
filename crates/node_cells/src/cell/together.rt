//! How a cell's leading node processes several inputs with one save.
ghost use Rattle.std.specs.Prelude.{◌≡◌, ◌≤◌, ◌+◌, IfErr, IfOk, length, map, true};
ghost use Rattle.raft_log.specs.Batches.{batch_limit};
ghost use Rattle.raft_log.specs.Node.{is_leader};
ghost use Rattle.raft_log.specs.Positions.{role_of};
ghost use Rattle.raft_node.specs.Parts.{keeper};
ghost use Rattle.node_cells.specs.declared.phase.Phase.TheVariants.{Up};
ghost use Rattle.node_cells.specs.Books.{room_for};
ghost use Rattle.node_cells.specs.Causes.{HasCause};
ghost use Rattle.node_cells.specs.Cells.{view_in};
ghost use Rattle.node_cells.specs.Copies.{AreCopies};
ghost use Rattle.node_cells.specs.Inputs.{OnlyAppend, input_of};
ghost use Rattle.node_cells.specs.Marks.{asked_by_all, asked_in};
ghost use Rattle.node_cells.specs.Together.{AreNoTurns, AreTurned};
ghost use Rattle.wire_bytes.specs.Limits.{number_limit};

use crate::cell::NodeCell;
use crate::cell_fault::CellFault;
use crate::copying::{input_copies, inputs_of};
use crate::phase::down_in;
use crate::reaching::asked_by_all;
use crate::told_input::ToldInput;
use crate::upstream::Upstream;
use machine_laws::{Hosted, Machine, Marking};
use node_steps::Refusal;
use raft_log::Message;
use raft_node::{Described, Input, NodeFault, Unsaved};
use recorder::NodeFields;
use stable_store::Stable;
use wire_bytes::Number;
use world_views::NodeInput;

impl<M: Marking, S: Stable<M::Command>, U: Upstream> NodeCell<M, S, U> {
    /// Inputs that only append, processed one after the other at a node that leads, and saved at once: an event for
    /// each, with its own ticket and its own answer. Nothing is posted and nothing handed out.
    ///
    /// Room in the record and tickets for all of them come first, then a copy of each, if turns are
    /// recorded: if memory runs out there, the cell is unchanged.
    pub fn turn_all(
        &mut self,
        inputs: Vec<NodeInput<M::Command, M::Line>>,
    ) -> Result<Vec<Result<(), Refusal>>, CellFault>
        requires leads { self.old.parts.phase ≡ Up
            → is_leader (role_of self.old.parts.node.state.standing.position) ≡ true }
        requires appends { OnlyAppend inputs.items }
        requires some { 1 ≤ length inputs.items }
        requires few { length inputs.items ≤ batch_limit }
        ensures done { IfOk result (λ answers. AreTurned
            (⟦<M as Described>⟧.machine self.old.parts.ether.setup) self.old.parts inputs.items
            answers.items self.new.parts) }
        ensures failed { IfErr result (λ fault. AreNoTurns
            (⟦<M as Described>⟧.machine self.old.parts.ether.setup) self.old.parts inputs.items fault
            self.new.parts) }
        ensures cause { HasCause (keeper S.saved S.may_stand S.condition) self.old.parts result
            self.new.parts }
    {
        if let Some(cause) = self.down() {
            return Err(CellFault::Node(NodeFault::Down(cause)));
        }
        self.make_room(inputs.len() as u64 - 1)?;
        let asked = asked_by_all::<M>(self.asked, &inputs);
        let Ok(copies) = input_copies(self.alloc, self.recording(), &inputs) else {
            return Err(CellFault::Memory);
        };
        let Ok((taken, told)) = inputs_of(self.alloc, inputs) else {
            return Err(CellFault::Memory);
        };
        self.run_all(told, copies, taken, asked)
    }

    /// Inputs of a node that is up and leads, when there is room for them. The copies are for the record, and `asked`
    /// is the greatest number of a mark that was asked for once they are done.
    fn run_all(
        &mut self,
        told: Vec<ToldInput<M::Command, M::Line, M::Target>>,
        copies: Vec<NodeInput<M::Command, M::Line>>,
        taken: Vec<Input<Message<M::Command>, M::Command, M::Line>>,
        asked: Number,
    ) -> Result<Vec<Result<(), Refusal>>, CellFault>
        requires up { self.old.parts.phase ≡ Up }
        requires leads { is_leader (role_of self.old.parts.node.state.standing.position) ≡ true }
        requires appends { OnlyAppend told.items }
        requires some { 1 ≤ length told.items }
        requires few { length told.items ≤ batch_limit }
        requires room { (room_for self.old.parts.recording (length told.items) ≤ self.old.room)
            × (length (view_in self.old.parts).turns + length told.items ≤ number_limit) }
        requires taken { taken.items ≡ map input_of told.items }
        requires copied { AreCopies self.old.parts.recording told.items copies.items }
        requires asked { asked
            ≡ asked_by_all M.marked (asked_in M.marked (view_in self.old.parts)) told.items }
        ensures done { IfOk result (λ answers. AreTurned
            (⟦<M as Described>⟧.machine self.old.parts.ether.setup) self.old.parts told.items
            answers.items self.new.parts) }
        ensures failed { IfErr result (λ fault. AreNoTurns
            (⟦<M as Described>⟧.machine self.old.parts.ether.setup) self.old.parts told.items fault
            self.new.parts) }
        ensures cause { HasCause (keeper S.saved S.may_stand S.condition) self.old.parts result
            self.new.parts }
    {
        self.node.is_whole();
        match self.node.step_all(taken) {
            Ok(answers) => {
                self.book.note_all(told, copies, &answers);
                self.book.is_whole();
                self.shown = NodeFields::of(self.node.state());
                self.asked = asked;
                Ok(answers)
            }
            Err(Unsaved { cause, answers }) => {
                self.phase = down_in(told, copies, answers);
                Err(CellFault::Node(NodeFault::Down(cause)))
            }
        }
    }
}
