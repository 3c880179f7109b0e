//! What a cell records.
use raft_log::NodeId;
use recorder::NodeFields;
use wire_bytes::{Number, Wire};
use world_run::Outcome;
use world_views::{Envelope, NodeEvent};

/// Whether a cell keeps its turns for its record. Its ether keeps its view either way.
#[derive(Clone, Copy)]
pub enum Recording {
    /// Each turn is kept in memory until the cell is closed.
    On,
    /// None is: the record of the cell has no turns.
    Off,
}

/// What happened to a node, and what came out of it.
#[derive(Drop)]
pub struct NodeTurn<B: Wire, L, T, E, P> {
    /// Its place among the turns of all nodes of the ether.
    pub ticket: u64,
    pub event: NodeEvent<B, L, T>,
    /// The result of the turn itself.
    pub outcome: Outcome<E, P>,
}

/// What a node did since its opening.
#[derive(Drop)]
pub struct NodeRecord<B: Wire, L, T, E, P> {
    pub node: NodeId,
    /// Its turns, the first first; none if they were not recorded.
    pub turns: Vec<NodeTurn<B, L, T, E, P>>,
    /// What it was at the end.
    pub state: NodeFields,
}

/// The result of a turn.
#[derive(Drop)]
pub struct TurnOutput<B: Wire, E> {
    /// The receivers of its messages, in order: one message may replace another.
    pub posted_to: Vec<u8>,
    /// The older messages that its posts replaced, in order: nobody took them.
    pub replaced: Vec<Envelope<B>>,
    /// The place that was applied, 0 if there is none.
    pub place: Number,
    /// The effects that leave, in order.
    pub effects: Vec<E>,
}
