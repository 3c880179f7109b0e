//! Parts of what is known of a node.
ghost use Rattle.std.specs.Prelude.{◌≡◌};
ghost use Rattle.driver.specs.Monitors.{is_over, outage};

use crate::timer::Timer;
use wire_bytes::{Number, SessionId};

/// How a node hears of leaders.
#[derive(Clone, Copy)]
pub struct Following {
    /// When it last heard of a leader, or asked for votes.
    pub last_leader_contact: Timer,
    /// It has waited anew for another node that asks for votes, since it last heard of a leader or asked itself.
    pub has_yielded: bool,
}

/// The last time that a leading node was asked to send.
#[derive(Clone, Copy)]
pub struct LastBeat {
    /// When, and by which of its notes.
    pub at: Timer,
    pub note: u64,
}

/// The last claim that a node was asked for.
#[derive(Clone, Copy)]
pub struct Claimed {
    pub session: SessionId,
    pub number: Number,
    /// When, and by which of the node's notes.
    pub at: Timer,
    pub note: u64,
    /// Its note is done, and all of the node's log has been applied since: it is applied, or is not in the log.
    pub is_settled: bool,
}

/// That a node is down.
#[derive(Clone, Copy)]
pub struct Outage {
    /// Since when, or when it was last asked to start again.
    pub since: Timer,
    /// How long from then until it is asked to start again, in milliseconds.
    pub wait_ms: u32,
}

impl Outage {
    /// A node is to start again this long from now on.
    pub fn from(now: u64, wait_ms: u32) -> Outage
        ensures { result ≡ outage now wait_ms }
    {
        Outage {
            since: Timer::from(now),
            wait_ms,
        }
    }

    /// Whether it is time to start the node again.
    pub fn has_waited(&self, now: u64) -> bool
        ensures { result ≡ is_over self.now.since self.now.wait_ms now }
    {
        self.since.has_passed(self.wait_ms as u64, now)
    }
}

/// When a node was up.
#[derive(Clone, Copy)]
pub struct Presence {
    /// When it last reported that it is up.
    pub last_report: Timer,
    /// When it last came up.
    pub up: Timer,
    /// It was up, and has not answered since for so long that its clients were told.
    pub is_hanging: bool,
}

/// What is known of the clients of a node.
#[derive(Clone, Copy)]
pub struct Visitors {
    /// The greatest boot in the origin of one, if there was one.
    pub greatest_boot: Option<Number>,
    /// It was logged that one was turned away, since the node was last up.
    pub has_turned_away: bool,
}
