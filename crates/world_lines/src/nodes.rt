//! The states of the nodes of a world, as lines.
ghost use Rattle.std.specs.Prelude.{◌≡◌, ◌++◌, OnOk};
ghost use Rattle.world_lines.specs.OutputText.{node_lines};

use machine_laws::Hosted;
use raft_log::NodeId;
use recorder::push_node;
use std::alloc::AllocError;
use world_run::World;

/// Appends a line for each node, by rising number. After an error a part of it may have been appended.
pub fn push_nodes<M: Hosted>(out: &mut Vec<u8>, world: &World<M>) -> Result<(), AllocError>
    ensures { OnOk result (out.new.items ≡ out.old.items ++ node_lines 1 world.now.nodes) }
{
    for number in 1..world.size() as u8 + 1 {
        if let Some(state) = world.state(number) {
            push_node(out, NodeId::new(number), state)?;
        }
    }
    Ok(())
}
