//! The nodes that a group may have.
ghost use Rattle.std.specs.Prelude.{◌≡◌, ◌≤◌, IfOk, length, take};
ghost use Rattle.journal_folder.specs.Nodes.{all_nodes};

use raft_log::{GroupSize, NodeId};
use std::alloc::{AllocError, Global};

/// Each node that a group may have, node 1 first.
pub fn all_nodes(alloc: Global) -> Result<Vec<NodeId>, AllocError>
    ensures { IfOk result (λ v. v.items ≡ all_nodes) }
{
    let nodes = [
        NodeId::new(1),
        NodeId::new(2),
        NodeId::new(3),
        NodeId::new(4),
        NodeId::new(5),
        NodeId::new(6),
        NodeId::new(7),
    ];
    Vec::from_slice(alloc, &nodes)
}

/// The nodes of a group of this size, node 1 first.
pub fn nodes_of(alloc: Global, size: GroupSize) -> Result<Vec<NodeId>, AllocError>
    ensures nodes { IfOk result (λ v. v.items ≡ take size all_nodes) }
    ensures count { IfOk result (λ v. length v.items ≡ size) }
{
    let all = all_nodes(alloc)?;
    let (nodes, _) = all.split_at(size.value() as usize);
    Vec::from_slice(alloc, nodes)
}
