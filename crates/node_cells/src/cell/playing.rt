//! What a cell plays.
ghost use Rattle.std.specs.Prelude.{◌≡◌, ◌<◌, ◌≤◌, length};
ghost use Rattle.node_cells.specs.declared.phase.Phase.TheVariants.{Up};
ghost use Rattle.node_cells.specs.Books.{room_for};
ghost use Rattle.node_cells.specs.Causes.{TellsCause};
ghost use Rattle.node_cells.specs.Cells.{view_in};
ghost use Rattle.node_cells.specs.Turns.{HasLooked};
ghost use Rattle.wire_bytes.specs.Limits.{number_limit};

use crate::cell::NodeCell;
use crate::cell_fault::CellFault;
use crate::copying::played_of;
use crate::for_record::ForRecord;
use crate::record::Recording;
use crate::upstream::Upstream;
use machine_laws::{Hosted, Machine, Marking};
use raft_node::{Described, Looked, NodeFault};
use stable_store::Stable;
use world_run::Outcome;
use world_views::NodeEvent;

impl<M: Marking, S: Stable<M::Command>, U: Upstream> NodeCell<M, S, U> {
    /// A playback of a target, once the node has applied up to this place; else `Behind`. Both are events that change
    /// nothing. If memory runs out there is no event.
    pub fn look(
        &mut self,
        from_place: u64,
        target: M::Target,
    ) -> Result<Looked<M::Played>, CellFault>
        ensures look { HasLooked (⟦<M as Described>⟧.machine self.old.parts.ether.setup) U.tally
            self.old.parts from_place target result self.new.parts }
        ensures cause { TellsCause result self.new.parts }
    {
        if let Some(cause) = self.down() {
            return Err(CellFault::Node(NodeFault::Down(cause)));
        }
        self.make_room(0)?;
        self.play(self.recording(), from_place, target)
    }

    /// A look at a node that is up, when there is room for it.
    fn play(
        &mut self,
        recording: Recording,
        from_place: u64,
        target: M::Target,
    ) -> Result<Looked<M::Played>, CellFault>
        requires recording { recording ≡ self.old.parts.recording }
        requires up { self.old.parts.phase ≡ Up }
        requires room { (room_for self.old.parts.recording 1 ≤ self.old.room)
            × (length (view_in self.old.parts).turns < number_limit) }
        ensures look { HasLooked (⟦<M as Described>⟧.machine self.old.parts.ether.setup) U.tally
            self.old.parts from_place target result self.new.parts }
        ensures cause { TellsCause result self.new.parts }
    {
        match self.node.look(&target, from_place) {
            Ok(looked) => {
                let Looked { place, lines } = looked;
                let Ok((lines, outcome)) = played_of(self.alloc, recording, place, lines) else {
                    return Err(CellFault::Memory);
                };
                let event = ForRecord::of(NodeEvent::Look(from_place, target));
                self.book.note(event, outcome);
                self.book.is_whole();
                Ok(Looked { place, lines })
            }
            Err(fault) => {
                if let NodeFault::Refused(refusal) = &fault {
                    let event = ForRecord::of(NodeEvent::Look(from_place, target));
                    self.book
                        .note(event, ForRecord::of(Outcome::Refused(*refusal)));
                    self.book.is_whole();
                    return Err(CellFault::Node(fault));
                }
                Err(CellFault::Node(fault))
            }
        }
    }
}
