//! What a node did, turn by turn.
use raft_log::NodeId;
use recorder::NodeFields;

/// What happened to a node, and what came out of it.
#[derive(Drop)]
pub struct Turn<E, O> {
    /// Its place among all turns of a run's nodes: a later turn has a larger one.
    pub ticket: u64,
    pub event: E,
    /// The result of the turn itself, whatever the same event would give in another world.
    pub outcome: O,
}

/// What one node of a run did.
#[derive(Drop)]
pub struct Record<E, O> {
    pub node: NodeId,
    /// Its turns, the first first.
    pub turns: Vec<Turn<E, O>>,
    /// Its state at the end.
    pub state: NodeFields,
}

/// What all nodes of a run did.
#[derive(Drop)]
pub struct Merged<E, O> {
    /// All turns, by rising ticket.
    pub turns: Vec<Turn<E, O>>,
    /// The state of each node at the end, by rising number.
    pub nodes: Vec<(NodeId, NodeFields)>,
}
