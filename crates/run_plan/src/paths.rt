//! Where the journals are.
ghost use Rattle.std.specs.Prelude.{◌≡◌, IfOk, string_bytes};
ghost use Rattle.run_plan.specs.Paths.{journal_path};

use raft_log::NodeId;
use std::alloc::{AllocError, Global};

/// The path of a node's journal in its folder.
pub fn journal_path(alloc: Global, folder: &str, node: NodeId) -> Result<String, AllocError>
    ensures { IfOk result (λ path. string_bytes path ≡ journal_path folder.now node) }
{
    let number = node.value();
    format!(in alloc; "{folder}/node-{number}")
}
