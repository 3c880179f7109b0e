//! How far a worker is.

/// How far a worker is. The driver's notes to it count from 1, in the order in which they were sent; notes of other
/// workers do not count.
#[derive(Clone, Copy)]
pub struct Progress {
    /// How many notes it has taken up: each is done, or is a request that waits for a leader.
    pub done: u64,
    /// How many requests wait until the node leads, or knows a leader that took its last message.
    pub waiting: u64,
    /// The last note whose request may be lost: it was asked in a term that is over for the node. The requests of
    /// earlier notes may be lost as well.
    pub lost: u64,
    /// How often the node has heard of the leader of its term.
    pub contacts: u64,
}
