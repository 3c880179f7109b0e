//! A run of a group, as far as it is drawn.
use crate::kinds::{Happening, MessageKind};
use raft_log::Role;

/// The state of a node, as far as it is drawn.
#[derive(Clone, Copy)]
pub struct NodeView {
    pub role: Role,
    pub term: u64,
    pub commit: u64,
    /// Which run of the node it is.
    pub boot: u64,
}

/// How an event changed the node to which it happened.
#[derive(Clone, Copy)]
pub struct Change {
    /// The node's number, from 1.
    pub node: u8,
    pub before: NodeView,
    pub after: NodeView,
}

/// An event.
#[derive(Clone, Copy)]
pub struct Row {
    /// The event's number, from 1.
    pub number: u32,
    pub happening: Happening,
    /// None if there is no such node or message.
    pub change: Option<Change>,
}

/// A message that was delivered.
#[derive(Clone, Copy)]
pub struct Arrow {
    pub sender: u8,
    /// Its number, from 1, among those that the sender sent.
    pub number: u64,
    pub addressee: u8,
    pub kind: MessageKind,
    /// The row in which it was sent.
    pub sent: u32,
    /// The row in which it was delivered.
    pub delivered: u32,
}

/// A run of a group.
#[derive(Drop)]
pub struct Diagram {
    /// How many nodes there are.
    pub size: u8,
    /// The number of the last event, or 0.
    pub last: u32,
    pub rows: Vec<Row>,
    pub arrows: Vec<Arrow>,
}
