//! The number of nodes of a group, as one byte.
ghost use Rattle.std.specs.Prelude.{◌≡◌, Ok};
ghost use Rattle.raft_log.specs.Peers.{IsGroupSize};

use raft_log::GroupSize;
use std::alloc::{AllocError, Global};
use std::marker::Model;
use wire_bytes::{Copied, Wire, WireFault, take_byte};

/// How many nodes a group has.
///
/// A clause sees it as the number.
#[derive(Clone, Copy, Debug, PartialEq, Eq)]
pub struct Nodes {
    size: GroupSize,
}

impl Model for Nodes {
    ghost use Rattle.std.specs.Prelude.{ℕ};

    ghost Value = { ℕ };

    ghost view = { λ n. n.size };

    ghost inverse = { λ v. record { size = v } };
}

impl Nodes {
    pub fn size(self) -> GroupSize
        ensures { result ≡ self }
    {
        self.size
    }
}

impl Copied for Nodes {
    fn copy(&self, _alloc: Global) -> Result<Self, AllocError>
        ensures { result ≡ Ok self.now }
    {
        Ok(*self)
    }
}

impl Wire for Nodes {
    ghost use Rattle.std.specs.Prelude.{◌∷◌, []};
    ghost use Rattle.raft_log.specs.Peers.{IsGroupSize};
    ghost use Rattle.store_setup.specs.Files.{nodes_taken};
    ghost use Rattle.store_setup.specs.FileCodec.{nodes_is_codec};
    ghost use Rattle.wire_bytes.specs.Wants.{never};

    ghost spelled = { λ n. n ∷ [] };

    ghost fits = { IsGroupSize };

    ghost taken = { nodes_taken };

    ghost wants = { never };

    fn put(&self, out: &mut Vec<u8>) -> Result<(), AllocError> {
        Ok(out.push(self.size.value())?)
    }

    #[tactic(auto, unfolding(crate::specs::Files::nodes_taken, wire_bytes::specs::Fields::only))]
    fn take(_alloc: Global, input: &[u8]) -> Result<(Self, usize), WireFault> {
        let (value, len) = take_byte(input, 3, 7)?;
        match GroupSize::new(value) {
            Some(size) => Ok((Nodes { size }, len)),
            None => Err(WireFault::Bad(0)),
        }
    }

    ghost is_codec = { nodes_is_codec };
}
