//! A message, with its number among those that its sender sent.
use raft_log::Message;
use wire_bytes::Wire;

/// A message, with its number among all that its sender sent, from 1, restarts included.
#[derive(Drop)]
pub struct Envelope<B: Wire> {
    pub number: u64,
    pub message: Message<B>,
}
