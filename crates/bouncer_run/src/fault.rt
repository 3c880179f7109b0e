//! Why the nodes of a bouncer do not start, as the program reports it.
ghost use Rattle.std.specs.Prelude.{◌≡◌};
ghost use Rattle.bouncer_run.specs.ClusterFaults.{fault_by};

use crate::run_fault::RunFault;
use node_threads::ClusterFault;
use raft_node::{Cause, NodeFault};

/// What it means to the program that the nodes do not start: out of memory is that, also a node's
/// own, and all else is a fault of a node's store.
pub fn fault_of_cluster(fault: ClusterFault) -> RunFault
    ensures { result ≡ fault_by fault }
{
    match fault {
        ClusterFault::Memory | ClusterFault::Node(NodeFault::Down(Cause::Memory)) => {
            RunFault::Memory
        }
        _ => RunFault::Store,
    }
}
