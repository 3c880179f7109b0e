//! The states of the nodes, as far as they are drawn.
ghost use Rattle.std.specs.Prelude.{◌≡◌, [], option_map};
ghost use Rattle.raft_log.specs.Lists.{item};
ghost use Rattle.raft_log.specs.Seen.{seen};
ghost use Rattle.world_run.specs.Groups.{nodes_in};
ghost use Rattle.world_app.specs.Diagrams.{change_of, view_of};

use crate::diagram::{Change, NodeView};
use crate::places::index_of;
use machine_laws::Hosted;
use raft_log::NodeState;
use wire_bytes::Wire;
use world_run::Cell;

/// The state of the node of this number, if there is one.
pub fn view_at<M: Hosted>(cells: &[Cell<M>], node: u8) -> Option<NodeView>
    ensures { result ≡ option_map view_of (item (nodes_in cells.now) node) }
{
    let index = index_of(node as u64, cells.len())?;
    Some(view_of(cells[index].state()))
}

/// The state of a node.
fn view_of<B: Wire>(state: &NodeState<B>) -> NodeView
    ensures { result ≡ view_of (seen state.now []) }
{
    let standing = &state.standing;
    NodeView {
        role: standing.position.role(),
        term: standing.term.value(),
        commit: standing.commit.value(),
        boot: standing.boot.value(),
    }
}

/// How an event changed a node that was this before it and is that after it.
pub fn change_of(node: u8, before: Option<NodeView>, after: Option<NodeView>) -> Option<Change>
    ensures { result ≡ change_of node before after }
{
    let before = before?;
    let after = after?;
    Some(Change {
        node,
        before,
        after,
    })
}
