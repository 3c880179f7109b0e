//! Which node leads, as far as is known: an older leader may hang, and not know of a newer one.
ghost use Rattle.std.specs.Prelude.{◌≡◌};
ghost use Rattle.driver.specs.Leading.{IsLeader, better};

use crate::node_monitor::{MOST_NODES, NodeMonitor};
use raft_log::NodeId;
use wire_bytes::Number;

/// A node that leads, and its term.
#[derive(Clone, Copy)]
struct Leader {
    node: NodeId,
    term: Number,
}

/// The leader of the greatest term, the first if there are several; none if no node leads.
pub fn leader_of(monitors: &[NodeMonitor; MOST_NODES]) -> Option<NodeId>
    ensures { IsLeader monitors.now result }
{
    let mut best = None;
    for id in 1..MOST_NODES as u8 + 1 {
        let term = monitors[id as usize - 1].leading();
        best = better(best, NodeId::new(id), term);
    }
    let best = best?;
    Some(best.node)
}

/// The better of the best so far and a node that leads in a greater term.
fn better(best: Option<Leader>, node: NodeId, term: Option<Number>) -> Option<Leader>
    ensures { result ≡ better best node term }
{
    let Some(term) = term else {
        return best;
    };
    let Some(before) = best else {
        return Some(Leader { node, term });
    };
    if before.term.value() < term.value() {
        Some(Leader { node, term })
    } else {
        Some(before)
    }
}
