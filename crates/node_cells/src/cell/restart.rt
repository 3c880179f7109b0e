//! How a cell's node is started again.
ghost use Rattle.std.specs.Prelude.{◌+◌, ◌≤◌, length};
ghost use Rattle.node_cells.specs.Books.{room_for};
ghost use Rattle.raft_node.specs.Parts.{keeper};
ghost use Rattle.node_cells.specs.Causes.{MayNotRestart};
ghost use Rattle.node_cells.specs.Cells.{view_in};
ghost use Rattle.node_cells.specs.Remembering.{Remembers};
ghost use Rattle.node_cells.specs.Restarts.{HasRestarted, firsts_at_most};
ghost use Rattle.wire_bytes.specs.Limits.{number_limit};

use crate::cell::NodeCell;
use crate::cell_fault::CellFault;
use crate::phase::{Phase, fallen};
use crate::remembered::Remembered;
use crate::upstream::Upstream;
use machine_laws::{Hosted, Machine, Marking};
use raft_node::Described;
use recorder::NodeFields;
use stable_store::Stable;
use std::mem::replace;
use wire_bytes::Number;

impl<M: Marking, S: Stable<M::Command>, U: Upstream> NodeCell<M, S, U> {
    /// The node stops, and is started again over its store: one event, or one for each input of those that were saved
    /// together, and one more for each earlier start that failed after it saved its run. What it had in memory shows
    /// whether the store kept the turns in which it went down. Its next run has asked for no mark, and applied none.
    pub fn restart(&mut self) -> Result<(), CellFault>
        ensures restart { HasRestarted (⟦<M as Described>⟧.machine self.old.parts.ether.setup)
            self.old.parts result self.new.parts }
        ensures cause { MayNotRestart (keeper S.saved S.may_stand S.condition) self.old.parts result
            self.new.parts }
    {
        let more = self.phase.most_events() - 1;
        self.make_room(more.saturating_add(self.refused))?;
        let Ok(before) = Remembered::of(self.alloc, self.node.state()) else {
            return Err(CellFault::Memory);
        };
        self.start_again(&before)
    }

    /// Starts the node again, when there is room for what that may publish.
    fn start_again(&mut self, before: &Remembered) -> Result<(), CellFault>
        requires before { Remembers before.now self.old.parts.node.state }
        requires room { (room_for self.old.parts.recording
            (firsts_at_most self.old.parts.phase + self.old.parts.refused) ≤ self.old.room)
            × (length (view_in self.old.parts).turns
            + (firsts_at_most self.old.parts.phase + self.old.parts.refused) ≤ number_limit) }
        ensures restart { HasRestarted (⟦<M as Described>⟧.machine self.old.parts.ether.setup)
            self.old.parts result self.new.parts }
        ensures cause { MayNotRestart (keeper S.saved S.may_stand S.condition) self.old.parts result
            self.new.parts }
    {
        self.node.is_whole();
        if let Err(fault) = self.node.restart() {
            self.phase = fallen(replace(&mut self.phase, Phase::Up));
            self.refused += 1;
            return Err(CellFault::Node(fault));
        }
        let same = before.is_in(self.node.state());
        let more = before.runs_until(self.node.state(), self.refused);
        let phase = replace(&mut self.phase, Phase::Up);
        self.book.note_first(phase, same);
        self.book.note_restarts(more);
        self.book.is_whole();
        self.refused = 0;
        self.shown = NodeFields::of(self.node.state());
        self.asked = Number::new(0);
        self.reached = None;
        Ok(())
    }
}
