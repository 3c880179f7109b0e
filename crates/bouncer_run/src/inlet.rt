//! How other threads send something to the loop.
ghost use Rattle.std.specs.Prelude.{◌≡◌, IfErr, IfOk};

use crossbeam_channel::Sender;
use driver::TowerReport;
use irc_line::Line;
use mio::Waker;
use raft_log::NodeId;
use std::snapshot::Snapshot;
use std::sync::{Arc, Wait};

/// What other threads send to the loop.
#[derive(Drop)]
pub enum LoopMessage {
    /// A node's worker reports the result of a turn.
    Report(TowerReport),
    /// A node handed out a line for the server.
    Hand(NodeId, Line),
    /// The bouncer is to end.
    End,
}

/// The loop was sent a message: only `Inlet::tell` makes one.
#[derive(Drop)]
pub struct Told {
    pub(crate) message: Snapshot<LoopMessage>,
}

/// Sends something to the loop, and wakes it.
#[derive(Drop)]
pub struct Inlet {
    pub messages: Sender<LoopMessage>,
    pub waker: Arc<Waker>,
}

impl Inlet {
    /// The loop is sent a message, which is returned if there is no memory, or if the loop ended.
    pub fn tell(&self, rt: &impl Wait, message: LoopMessage) -> Result<Told, LoopMessage>
        ensures told { IfOk result (λ told. told.message.value ≡ message) }
        ensures back { IfErr result (λ back. back ≡ message) }
    {
        let told = Told {
            message: Snapshot::of(&message),
        };
        if let Err(error) = self.messages.send(rt, message) {
            return Err(error.into_inner());
        }
        // if it can't be woken, the loop hears of it at its next tick
        let _ = self.waker.wake();
        Ok(told)
    }
}
