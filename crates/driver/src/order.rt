//! What the driver asks for.
use crate::news::News;
use bouncer_tower::{TowerBody, TowerEffect};
use buffer_commands::WireLine;
use node_notes::{Note, Report};
use raft_log::NodeId;
use wire_bytes::Moment;

/// A note to a node's worker.
pub type TowerNote = Note<TowerBody, WireLine>;

/// A report of a node's worker.
pub type TowerReport = Report<TowerEffect>;

/// A moment, by a clock of milliseconds that never goes back, and by the time of day.
#[derive(Clone, Copy)]
pub struct Now {
    pub ms: u64,
    pub at: Moment,
}

/// What the driver asks for, to be done in the order given.
#[derive(Drop)]
pub enum Order {
    /// A note goes to a node's worker.
    Submit(NodeId, TowerNote),
    /// These bytes go to the client of this number.
    Write(u64, Vec<u8>),
    /// Closes the connection of the client of this number, after what was written.
    Close(u64),
    /// Connects to the server.
    Connect,
    /// These bytes go to the server.
    Send(Vec<u8>),
    /// Closes the connection to the server, after what was sent.
    Disconnect,
    /// Logs this for the operator.
    Log(News),
}
