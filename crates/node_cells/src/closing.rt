//! The records of all nodes of a group.
ghost use Rattle.std.specs.Prelude.{◌≡◌, [], length, IfOk};
ghost use Rattle.std.specs.Arc.{arc_value};
ghost use Rattle.node_cells.specs.Groups.{AreRecordsOfGroup, HasClosed, IsNextCell};
ghost use Rattle.node_cells.specs.Unopened.{HasClosedUnopened, IsNextUnopened};

use crate::cell::NodeCell;
use crate::record::{NodeRecord, Recording};
use crate::unopened_cell::UnopenedCell;
use crate::upstream::Upstream;
use ether::{Ether, Pass};
use machine_laws::{Hosted, Machine, Marking};
use raft_node::Described;
use stable_store::Stable;
use std::alloc::{AllocError, Global};
use std::marker::Model;
use std::sync::Arc;
use world_views::merged_records_replay;

/// What the cells of one ether left, node 1's first. There is room for all of them from the start on, so that no call
/// allocates.
#[derive(Drop)]
pub struct Closing<M: Hosted> {
    ether: Arc<Ether<M>, Global>,
    recording: Recording,
    passes: Vec<Pass<M::Command, M::Line, M::Target>>,
    records: Vec<NodeRecord<M::Command, M::Line, M::Target, M::Effect, M::Played>>,
}

impl<M: Hosted> Model for Closing<M> {
    ghost use Rattle.std.specs.Prelude.{◌≤◌, map, vec_capacity};
    ghost use Rattle.std.specs.Arc.{arc_value};
    ghost use Rattle.raft_node.specs.Hosts.{hosted};
    ghost use Rattle.ether.specs.Passes.{view_of};
    ghost use Rattle.node_cells.specs.Groups.{ClosingParts, IsClosing};

    ghost Value = { ClosingParts M.Setup M.Command M.Line M.Target };

    ghost view = { λ c. record {
      ether = arc_value c.ether;
      recording = c.recording;
      views = map view_of c.passes.items;
    } };

    ghost invariant = { λ c. IsClosing (hosted M.blank M.opened M.shut M.heard M.claim M.source
        (M.effects c.ether.value.setup) (M.next_claim c.ether.value.setup)
        (M.playback c.ether.value.setup) M.class) c.ether.value c.recording c.passes.items
        c.records.items
        × (c.ether.value.size ≤ vec_capacity c.passes)
        × (c.ether.value.size ≤ vec_capacity c.records) };
}

impl<M: Marking> Closing<M> {
    /// Nothing yet, with room for what all nodes of the ether leave; either all their cells record or none does.
    pub fn new(
        alloc: Global,
        ether: &Arc<Ether<M>, Global>,
        recording: Recording,
    ) -> Result<Self, AllocError>
        ensures { IfOk result (λ c. (c.ether ≡ arc_value ether.now) × (c.recording ≡ recording)
            × (c.views ≡ [])) }
    {
        let ether = Arc::try_clone(ether)?;
        let count = ether.size().value() as usize;
        let passes = Vec::with_capacity(alloc, count)?;
        let records = Vec::with_capacity(alloc, count)?;
        Ok(Closing {
            ether,
            recording,
            passes,
            records,
        })
    }

    /// Closes a cell of this ether that records as the others do, and whose node is the next after those that were
    /// closed.
    pub fn close<S: Stable<M::Command>, U: Upstream>(&mut self, cell: NodeCell<M, S, U>)
        requires { IsNextCell self.old cell.parts }
        ensures { HasClosed self.old cell.parts self.new }
    {
        let (pass, record) = cell.leave();
        self.passes.push_reserved(pass);
        self.records.push_reserved(record);
    }

    /// Closes a node of this ether that was never opened, and that is the next after those that were closed. Its record
    /// has no turns.
    pub fn close_unopened<U: Upstream>(&mut self, cell: UnopenedCell<M, U>)
        requires { IsNextUnopened self.old cell }
        ensures { HasClosedUnopened self.old cell self.new }
    {
        let (pass, record) = cell.leave();
        self.passes.push_reserved(pass);
        self.records.push_reserved(record);
    }

    /// The records of all nodes, which are of one group. They have no turns if none were recorded, or the node was
    /// never opened.
    pub fn finish(self) -> Vec<NodeRecord<M::Command, M::Line, M::Target, M::Effect, M::Played>>
        requires { length self.views ≡ self.ether.size }
        ensures { AreRecordsOfGroup (⟦<M as Described>⟧.machine self.ether.setup) self.recording
            self.ether.size self.views result.items }
    {
        merged_records_replay::<M>();
        let Closing {
            ether,
            passes,
            records,
            ..
        } = self;
        ether.meet_all(passes);
        records
    }
}
