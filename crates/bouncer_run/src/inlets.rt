//! Ways to send something to the loop.
use crate::inlet::{Inlet, LoopMessage};
use crossbeam_channel::Sender;
use mio::Waker;
use std::alloc::AllocError;
use std::sync::Arc;

/// What each inlet of a loop is made from.
#[derive(Drop)]
pub struct Inlets {
    pub messages: Sender<LoopMessage>,
    pub waker: Arc<Waker>,
}

impl Inlets {
    /// One more way to send something to the loop.
    pub fn one(&self) -> Result<Inlet, AllocError> {
        let Ok(messages) = self.messages.clone() else {
            return Err(AllocError);
        };
        let Ok(waker) = Arc::try_clone(&self.waker) else {
            return Err(AllocError);
        };
        Ok(Inlet { messages, waker })
    }
}
