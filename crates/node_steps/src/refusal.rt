//! Why a node does not do what it is asked.
use wire_bytes::Number;

/// Why a node does not do what it is asked, and is unchanged.
#[derive(Clone, Copy, Debug, Drop, PartialEq, Eq)]
pub enum Refusal {
    /// The leader's log takes no more entries.
    LogFull,
    /// No term, or no attempt, follows 2^60.
    TermsSpent,
    /// It does not lead, and knows no leader.
    NoLeader,
    /// What was applied ends at this place, before the one that was asked for.
    Behind(Number),
    /// The body is not for this node to ask, or not in this run.
    BadOrigin,
}
