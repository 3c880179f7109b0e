//! Whether workers send by themselves.

/// Whether the worker of a leader sends to the other nodes by itself.
#[derive(Clone, Copy, Debug, PartialEq, Eq)]
pub enum Beats {
    /// It sends at the end of a round in which its log or the agreed part of it grew, or a lagging node answered; and
    /// when it is asked to.
    OnNews,
    /// It sends only when it is asked to.
    WhenTold,
}
