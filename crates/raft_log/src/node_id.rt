ghost use Rattle.std.specs.Prelude.{◌≡◌};
ghost use Rattle.raft_log.specs.Lists.{IsNode};

use std::marker::Model;

/// A node of a group, from 1 to 7.
///
/// A clause sees it as the number.
#[derive(Clone, Copy, Debug, PartialEq, Eq)]
pub struct NodeId {
    value: u8,
}

impl Model for NodeId {
    ghost use Rattle.std.specs.Prelude.{ℕ};
    ghost use Rattle.raft_log.specs.Lists.{IsNode};

    ghost Value = { ℕ };

    ghost view = { λ n. n.value };

    ghost invariant = { λ n. IsNode n.value };

    ghost inverse = { λ v. record { value = v } };
}

impl NodeId {
    pub fn new(value: u8) -> NodeId
        requires { IsNode value }
        ensures { result ≡ value }
    {
        NodeId { value }
    }

    pub fn value(self) -> u8
        ensures value { result ≡ self }
        ensures limits { IsNode self }
    {
        self.value
    }
}
