ghost use Rattle.std.specs.Prelude.{[], ◌∷◌, IfOk};
ghost use Rattle.raft_log.specs.Steps.{IsSending};

use crate::entry::Entry;
use crate::log::Log;
use crate::message::Message;
use crate::node_state::Standing;
use std::alloc::{AllocError, Global};
use wire_bytes::{Number, Wire};

/// What an event does to a node, prepared before it takes effect: it is saved first, and its messages are sent last.
#[derive(Drop)]
pub struct Step<B: Wire> {
    pub standing: Standing,
    /// How many entries of the log stay.
    pub keep: Number,
    /// The entries that follow them, at most [`BATCH_LIMIT`](crate::BATCH_LIMIT).
    pub entries: Vec<Entry<B>>,
    /// What is sent, in this order.
    pub messages: Vec<Message<B>>,
}

impl<B: Wire> Step<B> {
    /// A step that leaves the log as it is.
    pub fn sending(standing: Standing, log: &Log<B>, messages: Vec<Message<B>>) -> Self
        ensures { IsSending standing log.now messages.items result }
    {
        Step {
            standing,
            keep: log.len(),
            entries: Vec::new(*messages.allocator()),
            messages,
        }
    }

    /// A step that leaves the log as it is and sends nothing.
    pub fn still(alloc: Global, standing: Standing, log: &Log<B>) -> Self
        ensures { IsSending standing log.now [] result }
    {
        Step::sending(standing, log, Vec::new(alloc))
    }

    /// A step that leaves the log as it is and sends this message.
    pub fn answering(
        alloc: Global,
        standing: Standing,
        log: &Log<B>,
        message: Message<B>,
    ) -> Result<Self, AllocError>
        ensures { IfOk result (IsSending standing log.now (message ∷ [])) }
    {
        let mut messages = Vec::with_capacity(alloc, 1)?;
        messages.push(message)?;
        Ok(Step::sending(standing, log, messages))
    }
}
