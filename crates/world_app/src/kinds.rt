//! What events and messages are, as far as they are drawn.

/// What an input is.
#[derive(Clone, Copy, Debug, PartialEq, Eq)]
pub enum Deed {
    Timeout,
    Beat,
    Deliver,
    Ask,
    Opened,
    Closed,
    Heard,
    Claim,
    Apply,
    Look,
}

/// What an event is.
#[derive(Clone, Copy, Debug, PartialEq, Eq)]
pub enum Happening {
    Does(Deed),
    Restarts,
    /// The node stops while this happens, before it is saved.
    StopsBefore(Deed),
    /// The node stops while this happens, after it is saved.
    StopsAfter(Deed),
}

/// What a message is.
#[derive(Clone, Copy, Debug, PartialEq, Eq)]
pub enum MessageKind {
    /// A candidate asks for a vote.
    RequestVote,
    Vote,
    /// A vote is denied.
    Denial,
    Append,
    /// Entries were taken.
    Reply,
    /// Entries were not taken, since there is a gap before them.
    Gap,
    Forward,
}
