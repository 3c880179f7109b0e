//! Whether more is read for a node.
ghost use Rattle.std.specs.Prelude.{◌≡◌};
ghost use Rattle.driver.specs.Rosters.{is_read_for};

use crate::node_monitor::{MOST_NODES, NodeMonitor};
use crate::orders::Orders;
use raft_log::NodeId;

/// Whether a node has room for more notes, if there is a node.
pub fn reads_for(
    monitors: &[NodeMonitor; MOST_NODES],
    orders: &Orders,
    node: Option<NodeId>,
) -> bool
    ensures { result ≡ is_read_for orders.now monitors.now node }
{
    let Some(node) = node else {
        return true;
    };
    match monitors.get(node.value() as usize - 1) {
        Some(monitor) => !monitor.is_full(orders),
        None => true,
    }
}
