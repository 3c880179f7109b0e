//! Passes, by which nodes take steps.
ghost use Rattle.std.specs.Prelude.{◌≡◌, ◌+◌, ◌≤◌, ◌↔◌, IsTrue};
ghost use Rattle.wire_bytes.specs.Limits.{number_limit};

use crate::known::Known;
use atomic_table::Seat;
use wire_bytes::{LAST_NUMBER, Wire};
use world_views::Envelope;

/// The most ticks of a pass.
pub(crate) const MOST_TICKS: u64 = LAST_NUMBER;

/// A mailbox's word exceeds its slot's number by this if a message is in the slot. There are fewer slots than this.
pub(crate) const FULL: u64 = 64;

/// One node's right to take steps at an ether. Of the node it has only its place.
#[derive(Drop)]
pub struct Pass<B: Wire, L, T> {
    pub(crate) seat: Seat<Option<Envelope<B>>, Known<B, L, T>>,
    pub(crate) node: u64,
    pub(crate) spare: u64,
    pub(crate) ticks: u64,
}

impl<B: Wire, L, T> Pass<B, L, T> {
    /// The place of its node, from 0 on: node 1 has place 0.
    pub fn node(&self) -> u64
        ensures { result ≡ self.now.node }
    {
        self.node
    }

    /// Whether it may make this many ticks, and one more.
    pub fn has_room(&self, count: u64) -> bool
        ensures { IsTrue result ↔ self.now.ticks + count + 1 ≤ number_limit }
    {
        self.ticks < MOST_TICKS && count < MOST_TICKS - self.ticks
    }
}
