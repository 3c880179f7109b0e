//! What a configuration says about the group of nodes.
ghost use Rattle.std.specs.Prelude.{◌≡◌, length};
ghost use Rattle.raft_log.specs.Peers.{IsGroupSize};
ghost use Rattle.bouncer_run.specs.Groups.{recording_by};

use bouncer_config::{Address, Config};
use node_cells::Recording;
use raft_log::GroupSize;
use std::net::{Ipv4Addr, SocketAddr};

/// As many nodes as addresses to listen at.
pub fn size_of(config: &Config) -> GroupSize
    requires { IsGroupSize (length config.now.listen.items) }
    ensures { result ≡ length config.now.listen.items }
{
    match GroupSize::new(config.listen.len() as u8) {
        Some(size) => size,
        None => unreachable!(),
    }
}

/// Turns are kept if the configuration names a file for the record, and not otherwise.
pub fn recording_of(config: &Config) -> Recording
    ensures { result ≡ recording_by config.now.record }
{
    match &config.record {
        Some(_) => Recording::On,
        None => Recording::Off,
    }
}

/// The address, which is on this machine.
pub fn address_of(address: Address) -> SocketAddr {
    SocketAddr::from((Ipv4Addr::LOCALHOST, address.port()))
}
