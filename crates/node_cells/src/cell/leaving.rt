//! What a cell leaves.
ghost use Rattle.std.specs.Prelude.{◌≡◌};
ghost use Rattle.ether.specs.Passes.{IsOpenPass};
ghost use Rattle.node_cells.specs.Openings.{IsClosed};

use crate::cell::NodeCell;
use crate::record::NodeRecord;
use crate::upstream::Upstream;
use ether::Pass;
use machine_laws::{Hosted, Machine, Marking};
use raft_node::Described;
use stable_store::Stable;

impl<M: Marking, S: Stable<M::Command>, U: Upstream> NodeCell<M, S, U> {
    /// The record of the node's turns, empty if they were not recorded, and the fields of the state that the cell
    /// shows.
    pub fn close(self) -> NodeRecord<M::Command, M::Line, M::Target, M::Effect, M::Played>
        ensures { IsClosed (⟦<M as Described>⟧.machine self.parts.ether.setup) self.parts result }
    {
        self.leave().1
    }

    /// What `close` gives, together with the cell's pass.
    pub fn leave(
        self,
    ) -> (
        Pass<M::Command, M::Line, M::Target>,
        NodeRecord<M::Command, M::Line, M::Target, M::Effect, M::Played>,
    )
        ensures pass { (result.0 ≡ self.parts.pass) × IsOpenPass self.parts.ether result.0 }
        ensures record { IsClosed (⟦<M as Described>⟧.machine self.parts.ether.setup) self.parts
            result.1 }
    {
        let node = self.node.id();
        let state = self.shown;
        let (pass, turns) = self.book.into_parts();
        (pass, NodeRecord { node, turns, state })
    }
}
