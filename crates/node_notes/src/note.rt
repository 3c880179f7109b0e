//! Notes to a worker.
ghost use Rattle.std.specs.Prelude.{◌≡◌};
ghost use Rattle.node_notes.specs.Notes.{input_of};

use wire_bytes::{Moment, Wire};
use world_views::NodeInput;

/// A note to a node's worker: what happens to its node, except messages, which it takes from the node's mailboxes; or
/// what the worker itself is to do.
#[derive(Drop)]
pub enum Note<B: Wire, L> {
    /// The node waited too long for a leader: its worker asks for votes, unless by then it has heard of a leader more
    /// often than this, and so since the driver counted.
    Timeout(u64),
    /// The node, if it leads, sends to all others.
    Beat,
    /// A client asks, or it is known that a node is gone.
    Ask(B),
    /// The upstream session is registered.
    Opened,
    /// The upstream session ended.
    Closed,
    /// A line came from upstream.
    Heard(Moment, L),
    /// The next line for upstream is claimed.
    Claim,
    /// Messages may be in the node's mailboxes.
    Wake,
    /// The node is down, and is started again from its store.
    Restart,
    /// The worker is done.
    End,
}

impl<B: Wire, L> Note<B, L> {
    /// What happens to the node by this note; nothing if the note is for the worker.
    pub fn into_input(self) -> Option<NodeInput<B, L>>
        ensures { result ≡ input_of self }
    {
        match self {
            Note::Timeout(_) => Some(NodeInput::Timeout),
            Note::Beat => Some(NodeInput::Beat),
            Note::Ask(body) => Some(NodeInput::Ask(body)),
            Note::Opened => Some(NodeInput::Opened),
            Note::Closed => Some(NodeInput::Closed),
            Note::Heard(at, line) => Some(NodeInput::Heard(at, line)),
            Note::Claim => Some(NodeInput::Claim),
            Note::Wake | Note::Restart | Note::End => None,
        }
    }
}
