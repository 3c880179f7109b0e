//! What waits to go to the server in a session, and goes.
ghost use Rattle.std.specs.Prelude.{◌≡◌, OnOk, if◌then◌else◌, length};
ghost use Rattle.driver.specs.Links.{is_session_of};
ghost use Rattle.driver.specs.Outgoing.{has_said, next_piece, with_line, without_next, without_said};
ghost use Rattle.driver.specs.Writing.{IsSent, joined, keys_behind};

use crate::channel_key::ChannelKey;
use crate::key_ring::key_in;
use crate::link::Link;
use crate::orders::Orders;
use crate::outgoing::Piece;
use irc_line::Line;
use raft_log::NodeId;
use std::alloc::AllocError;

impl Link {
    /// A line of this node's session waits to go out.
    pub fn queue(&mut self, node: NodeId, line: &Line) -> Result<(), AllocError>
        ensures waiting { OnOk result (self.new.waiting ≡ (if is_session_of self.old.stage node
            then with_line line.now self.old.waiting else self.old.waiting)) }
        ensures rest { self.new ≡ record self.old { waiting = self.new.waiting } }
    {
        if !self.is_session_of(node) {
            return Ok(());
        }
        let line = line.share()?;
        self.waiting.push(line)
    }

    /// A channel waits to be joined again in the session: by the key by which it was last joined, or else by its key in
    /// this list.
    pub fn join(&mut self, channel: &[u8], keys: &[ChannelKey]) -> Result<(), AllocError>
        ensures { OnOk result (self.new ≡ joined keys.now channel.now self.old) }
    {
        let known = self.keys.key_of(channel);
        let key = if known.is_empty() {
            key_in(channel, keys)
        } else {
            known
        };
        self.waiting.push_join(channel, key)?;
        self.absent.ask(channel)
    }

    /// Whether a said line waits.
    pub fn has_said(&self) -> bool
        ensures { result ≡ has_said self.now.waiting }
    {
        self.waiting.has_said()
    }

    /// Drops said lines that wait. Returns how many there were.
    pub fn drop_said(&mut self) -> u64
        ensures count { result ≡ length self.old.waiting.said }
        ensures rest { self.new
            ≡ record self.old { waiting = without_said self.old.waiting } }
    {
        let count = self.waiting.said_count() as u64;
        self.waiting.drop_said();
        count
    }

    /// Takes the next piece, if there is one: questions only if they are due.
    pub fn next_piece(&mut self, are_due: bool) -> Option<Piece>
        ensures piece { result ≡ next_piece are_due self.old.waiting }
        ensures rest { self.new
            ≡ record self.old { waiting = without_next are_due self.old.waiting } }
    {
        self.waiting.next(are_due)
    }

    /// Sends a piece to the server. A key that it joins a channel by is tried.
    pub fn write(&mut self, piece: Piece, orders: &mut Orders) -> Result<(), AllocError>
        ensures sent { OnOk result (IsSent piece orders.old orders.new) }
        ensures keys { OnOk result
            (self.new ≡ record self.old { keys = keys_behind piece self.old.keys }) }
    {
        if let Piece::Says(line) = &piece {
            self.keys.hear(line)?;
        }
        let bytes = piece.into_bytes(self.alloc)?;
        orders.send(bytes)
    }
}
