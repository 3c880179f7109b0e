//! What the chat is printed from, and its effects, of which there are none.
use crate::choice::Choice;
use buffer_commands::Setup;
use std::alloc::{AllocError, Global};
use wire_bytes::Copied;

/// The setup of the buffers, and which lines are printed.
#[derive(Drop)]
pub struct ChatSetup {
    pub buffers: Setup,
    pub choice: Choice,
}

impl Copied for ChatSetup {
    fn copy(&self, alloc: Global) -> Result<Self, AllocError> {
        Ok(ChatSetup {
            buffers: self.buffers.copy(alloc)?,
            choice: self.choice.copy(alloc)?,
        })
    }
}

/// The effect of a command: only the text grows, so none is ever made.
#[derive(Clone, Copy)]
pub struct Silence;

impl Copied for Silence {
    fn copy(&self, _alloc: Global) -> Result<Self, AllocError> {
        Ok(*self)
    }
}
