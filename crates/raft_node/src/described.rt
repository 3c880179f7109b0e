//! A hosted machine as the definitions describe it.
ghost use Rattle.raft_node.specs.Hosts.{hosted};
ghost use Rattle.raft_node.specs.Machine.{Machine};

use machine_laws::Hosted;

/// A machine that the definitions of a node describe: every hosted one.
pub trait Described: Hosted {
    /// All that a node has to know of it, by its setup.
    ghost machine: { Self.Setup → Machine };
}

impl<M: Hosted> Described for M {
    ghost machine = { λ s. hosted M.blank M.opened M.shut M.heard M.claim M.source (M.effects s)
        (M.next_claim s) (M.playback s) M.class };
}
