//! How a cell begins.
ghost use Rattle.std.specs.Prelude.{◌≡◌, [], suc};
ghost use Rattle.std.specs.Arc.{arc_value};
ghost use Rattle.ether.specs.Passes.{IsPass, IsUnopened, WasStarted, view_of};
ghost use Rattle.raft_node.specs.Parts.{keeper};
ghost use Rattle.raft_node.specs.Starting.{IsStarted};
ghost use Rattle.node_cells.specs.Openings.{HasOpened};
ghost use Rattle.node_cells.specs.Unopened.{IsOver};

use crate::book::Book;
use crate::cell::NodeCell;
use crate::cell_fault::CellFault;
use crate::phase::Phase;
use crate::record::Recording;
use crate::upstream::Upstream;
use ether::{Ether, Pass};
use machine_laws::{Hosted, Machine, Marking};
use raft_log::NodeId;
use raft_node::{Node, NodeFault};
use recorder::NodeFields;
use stable_store::Stable;
use std::alloc::Global;
use std::sync::Arc;
use wire_bytes::Number;

impl<M: Marking, S: Stable<M::Command>, U: Upstream> NodeCell<M, S, U> {
    /// The opening: the node of the pass is started over its store. If that fails all is dropped. Whether turns are
    /// recorded stays the same until the cell is closed.
    pub fn open(
        alloc: Global,
        ether: Arc<Ether<M>, Global>,
        pass: Pass<M::Command, M::Line, M::Target>,
        store: S,
        upstream: U,
        recording: Recording,
    ) -> Result<Self, CellFault>
        requires pass { IsPass (arc_value ether) pass × IsUnopened pass
            × ((view_of pass).turns ≡ []) }
        ensures { HasOpened (keeper S.saved S.may_stand S.condition) (arc_value ether) pass
            store upstream recording result }
    {
        match start_node(alloc, &ether, &pass, store) {
            Ok(node) => Ok(NodeCell::over(alloc, ether, pass, node, upstream, recording)),
            Err(fault) => Err(CellFault::Node(fault)),
        }
    }

    /// Opens the cell of a node that was started.
    pub(crate) fn over(
        alloc: Global,
        ether: Arc<Ether<M>, Global>,
        mut pass: Pass<M::Command, M::Line, M::Target>,
        node: Node<M, S>,
        upstream: U,
        recording: Recording,
    ) -> Self
        requires pass { IsPass (arc_value ether) pass × IsUnopened pass
            × ((view_of pass).turns ≡ []) }
        requires node { WasStarted (keeper S.saved S.may_stand S.condition) (suc pass.node)
            (arc_value ether).size (arc_value ether).setup node }
        ensures { IsOver (keeper S.saved S.may_stand S.condition) (arc_value ether) pass node
            upstream recording result.parts }
    {
        let size = ether.size();
        size.value();
        ether.opening(&mut pass, &node);
        let shown = NodeFields::of(node.state());
        NodeCell {
            alloc,
            book: Book {
                ether,
                pass,
                recording,
                turns: Vec::new(alloc),
                sent: 0,
            },
            node,
            upstream,
            phase: Phase::Up,
            refused: 0,
            shown,
            asked: Number::new(0),
            reached: None,
        }
    }
}

/// The node of a pass, started over a store. If that fails the store is dropped.
pub fn start_node<M: Hosted, S: Stable<M::Command>>(
    alloc: Global,
    ether: &Arc<Ether<M>, Global>,
    pass: &Pass<M::Command, M::Line, M::Target>,
    store: S,
) -> Result<Node<M, S>, NodeFault>
    requires { IsPass (arc_value ether.now) pass.now }
    ensures { IsStarted (keeper S.saved S.may_stand S.condition) (suc pass.now.node)
        (arc_value ether.now).size (arc_value ether.now).setup store result }
{
    let size = ether.size();
    size.value();
    let id = NodeId::new(pass.node() as u8 + 1);
    Node::start(alloc, id, size, ether.setup(), store)
}
