//! What happens to a node, and the result.
ghost use Rattle.std.specs.Prelude.{◌≡◌};
ghost use Rattle.raft_node.specs.Inputs.{is_apply};

use raft_log::Message;
use wire_bytes::{Moment, Number, Wire};

/// What happens to a node, over bodies and lines of the machine that it hosts. A delivery holds the
/// message, or the envelope that it came in.
#[derive(Drop)]
pub enum Input<D, B, L> {
    /// It waited too long for a leader.
    Timeout,
    /// A leader sends to all others.
    Beat,
    /// A message comes.
    Deliver(D),
    /// A client asks, or it is known that a node is gone.
    Ask(B),
    /// The upstream session is registered.
    Opened,
    /// The upstream session ended.
    Closed,
    /// A line came from upstream.
    Heard(Moment, L),
    /// The next line for upstream is claimed.
    Claim,
    /// One entry is applied.
    Apply,
}

impl<D, B, L> Input<D, B, L> {
    /// Whether an entry is applied, which needs no save.
    pub fn is_apply(&self) -> bool
        ensures { result ≡ is_apply self.now }
    {
        match self {
            Input::Apply => true,
            _ => false,
        }
    }
}

/// The result of a step.
#[derive(Drop)]
pub struct Output<B: Wire, E> {
    /// What was sent, in order.
    pub messages: Vec<Message<B>>,
    /// The place that was applied, 0 if there is none.
    pub place: Number,
    /// The effects that leave, in order.
    pub effects: Vec<E>,
}

/// A playback.
#[derive(Drop)]
pub struct Looked<P> {
    /// The place up to which the node has applied.
    pub place: Number,
    pub lines: Vec<P>,
}
