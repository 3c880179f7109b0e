//! What happens at the edge, as it is logged.
use irc_line::Name;
use raft_log::NodeId;
use std::net::SocketAddr;
use std::str::from_utf8;
use std::{fmt, io};

/// What happens at the edge, a line each: never what is sent there.
#[derive(Drop)]
pub enum EdgeNews {
    /// A client connected to this node.
    Came(NodeId, u64, SocketAddr),
    /// A client's connection is closed.
    Closed(NodeId, u64, SocketAddr),
    /// A client came with a wrong password, or with none.
    WrongPassword(NodeId, u64, SocketAddr),
    /// A client left, or was closed, before it registered.
    Unregistered(NodeId, u64, SocketAddr),
    /// A client had not registered, or was to be closed, when a new one came and all places were
    /// taken: it gave up its own.
    GaveWay(NodeId, u64, SocketAddr),
    /// All places were taken by clients that registered, so a new one was turned away.
    Crowded(NodeId, SocketAddr),
    /// No client can be taken, and why.
    Deaf(NodeId, io::Error),
    /// The server refuses the session, or ends it, and says so.
    Refused(String),
    /// A channel is not joined, and why.
    NotJoined(NodeId, String),
    /// The server took the session of this node, with this nick.
    Nick(NodeId, Name),
    /// Standard input ended, which ends the bouncer.
    InputEnded,
}

impl EdgeNews {
    /// The node that it is about, if it is about one.
    pub fn node(&self) -> Option<NodeId> {
        match self {
            EdgeNews::Came(node, _, _) | EdgeNews::Closed(node, _, _) => Some(*node),
            EdgeNews::WrongPassword(node, _, _) => Some(*node),
            EdgeNews::Unregistered(node, _, _) => Some(*node),
            EdgeNews::GaveWay(node, _, _) | EdgeNews::Crowded(node, _) => Some(*node),
            EdgeNews::Deaf(node, _) | EdgeNews::NotJoined(node, _) => Some(*node),
            EdgeNews::Nick(node, _) => Some(*node),
            EdgeNews::Refused(_) | EdgeNews::InputEnded => None,
        }
    }

    /// Whether it is a detail, wanted only by someone who looks for a fault.
    pub fn is_detail(&self) -> bool {
        matches!(self, EdgeNews::Came(_, _, _) | EdgeNews::Closed(_, _, _))
    }
}

impl fmt::Display for EdgeNews {
    fn fmt<W: fmt::Write>(&self, f: &mut fmt::Formatter<W>) -> fmt::Result {
        match self {
            EdgeNews::Came(_, number, from) => write!(f, "client {number} came from {from}"),
            EdgeNews::Closed(_, number, from) => write!(f, "client {number} of {from} is closed"),
            EdgeNews::WrongPassword(_, number, from) => {
                write!(f, "wrong password: client {number} of {from} is refused")
            }
            EdgeNews::Unregistered(_, number, from) => {
                write!(f, "client {number} of {from} did not register")
            }
            EdgeNews::GaveWay(_, number, from) => {
                write!(f, "too many clients: client {number} of {from} gives way")
            }
            EdgeNews::Crowded(_, from) => write!(f, "too many clients: {from} is turned away"),
            EdgeNews::Deaf(_, error) => write!(f, "no client can be taken: {error}"),
            EdgeNews::Refused(text) => write!(f, "the server says: {text}"),
            EdgeNews::NotJoined(_, text) => write!(f, "{text}"),
            EdgeNews::Nick(_, nick) => write!(f, "the nick is {}", text_of(nick)),
            EdgeNews::InputEnded => write!(f, "standard input ended: stopping"),
        }
    }
}

/// A name as text, if it is text.
fn text_of(name: &Name) -> &str {
    from_utf8(name.as_bytes()).unwrap_or("one that is no text")
}
