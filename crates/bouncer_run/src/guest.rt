//! A client's connection, and how far the client came.
ghost use Rattle.std.specs.Prelude.{◌≡◌, ◌||◌, length, IfOk, IsTrue};
ghost use Rattle.bouncer_run.specs.Connections.{gathered, is_ending, may_wait};
ghost use Rattle.bouncer_run.specs.Guests.{hold, is_registered, parting};

use crate::connection::Connection;
use crate::edge_news::EdgeNews;
use mio::net::TcpStream;
use raft_log::NodeId;
use std::alloc::{AllocError, Global};
use std::net::SocketAddr;

/// How far a client came.
#[derive(Clone, Copy, Debug, PartialEq, Eq)]
pub enum Stage {
    /// It has not registered so far.
    Arriving,
    /// Its password was wrong, as the driver reports.
    Refused,
    Registered,
}

/// A client's hold on its place, the weakest first.
#[derive(Clone, Copy, Debug, PartialEq, Eq)]
pub enum Hold {
    /// It has not registered.
    Unregistered,
    /// It registered, is only to be closed, and nothing waits to be written to it.
    Closing,
    /// It registered, is only to be closed, and something waits to be written to it.
    Unsent,
    /// It is served.
    Served,
}

/// A client's connection.
#[derive(Drop)]
pub struct Guest {
    pub node: NodeId,
    pub address: SocketAddr,
    pub connection: Connection<TcpStream>,
    pub stage: Stage,
}

impl Guest {
    /// A client that has just come to a node.
    pub fn new(alloc: Global, node: NodeId, stream: TcpStream, address: SocketAddr) -> Guest {
        Guest {
            node,
            address,
            connection: Connection::new(alloc, stream),
            stage: Stage::Arriving,
        }
    }

    /// It is written these bytes. Returns whether its connection is still there.
    pub fn write(&mut self, bytes: &[u8]) -> Result<bool, AllocError>
        ensures stands { IfOk result (λ stands. stands
            ≡ may_wait self.old.connection.phase self.old.connection.unsent bytes.now) }
        ensures waits { IfOk result (λ stands. IsTrue stands → self.new.connection.unsent
            ≡ gathered self.old.connection.phase self.old.connection.unsent bytes.now) }
        ensures rest { self.new ≡ record self.old {
          connection = record self.old.connection {
            unsent = self.new.connection.unsent;
          };
        } }
    {
        self.connection.write(bytes)
    }

    /// Its hold on its place, given whether the driver knows that it registered.
    pub fn hold(&self, is_attached: bool) -> Hold
        ensures { result ≡ hold (is_attached || is_registered self.now.stage)
            (is_ending self.now.connection.phase) (length self.now.connection.unsent) }
    {
        if !is_attached && self.stage != Stage::Registered {
            Hold::Unregistered
        } else if !self.connection.is_ending() {
            Hold::Served
        } else if self.connection.has_unsent() {
            Hold::Unsent
        } else {
            Hold::Closing
        }
    }

    /// What is logged if the client of this number goes and did not register.
    pub fn parting(&self, number: u64) -> Option<EdgeNews>
        ensures { result ≡ parting self.now.stage self.now.node number self.now.address }
    {
        match self.stage {
            Stage::Arriving => Some(EdgeNews::Unregistered(self.node, number, self.address)),
            Stage::Refused | Stage::Registered => None,
        }
    }
}
