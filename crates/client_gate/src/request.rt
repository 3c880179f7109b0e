use buffer_commands::Action;
use std::alloc::{AllocError, Global};
use wire_bytes::{Copied, Number};

/// A request of a client, with its number among the client's requests, from 1.
#[derive(Drop)]
pub struct Request {
    pub number: Number,
    pub action: Action,
}

impl Copied for Request {
    fn copy(&self, alloc: Global) -> Result<Self, AllocError> {
        Ok(Request {
            number: self.number,
            action: self.action.copy(alloc)?,
        })
    }
}
