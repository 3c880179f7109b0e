//! How a cell marks places of the agreed list, and waits for its marks.
ghost use Rattle.raft_node.specs.Parts.{keeper};
ghost use Rattle.node_cells.specs.Causes.{HasCause, TellsCause};
ghost use Rattle.node_cells.specs.Marking.{HasLookedAfter, HasMarked};

use crate::cell::NodeCell;
use crate::cell_fault::CellFault;
use crate::mark_turn::MarkTurn;
use crate::reaching::is_reached;
use crate::upstream::Upstream;
use machine_laws::{Hosted, Machine, Marking};
use node_steps::Refusal;
use raft_node::{Described, Looked, NodeFault};
use stable_store::Stable;
use wire_bytes::{LAST_NUMBER, Mark, Number};
use world_views::NodeInput;

impl<M: Marking, S: Stable<M::Command>, U: Upstream> NodeCell<M, S, U> {
    /// Asks for the next mark of this run, one more than the greatest that it asked for, and returns its number and the
    /// result of the turn. A mark that the node refuses to ask for, such as when it knows no leader, was asked for all
    /// the same: its number is used up. `Spent` also if the number would pass 2^60. A mark that was asked for may still
    /// be lost on its way.
    pub fn mark(&mut self) -> Result<MarkTurn<M::Command, M::Effect>, CellFault>
        ensures mark { HasMarked (⟦<M as Described>⟧.machine self.old.parts.ether.setup) U.tally
            M.marked M.mark self.old.parts result self.new.parts }
        ensures cause { HasCause (keeper S.saved S.may_stand S.condition) self.old.parts result
            self.new.parts }
    {
        let asked = self.asked.value();
        if asked >= LAST_NUMBER {
            return Err(CellFault::Spent);
        }
        let number = asked + 1;
        let mark = Mark {
            node: self.id().value(),
            boot: self.state().standing.boot,
            number: Number::new(number),
        };
        match self.turn(NodeInput::Ask(M::mark(mark))) {
            Ok(output) => Ok(MarkTurn { number, output }),
            Err(fault) => Err(fault),
        }
    }

    /// A playback of a target, as `look` gives it, once the node has applied a mark of this run with this number or a
    /// larger one. Until then the answer is `Behind`, which is no event.
    pub fn look_after(
        &mut self,
        number: u64,
        target: M::Target,
    ) -> Result<Looked<M::Played>, CellFault>
        ensures look { HasLookedAfter (⟦<M as Described>⟧.machine self.old.parts.ether.setup) U.tally
            M.marked self.old.parts number target result self.new.parts }
        ensures cause { TellsCause result self.new.parts }
    {
        if !is_reached(self.reached, number) {
            let applied = self.fields().applied;
            let behind = NodeFault::Refused(Refusal::Behind(applied));
            return Err(CellFault::Node(behind));
        }
        self.look(0, target)
    }
}
