//! What the driver knows of one node.
ghost use Rattle.std.specs.Prelude.{◌≡◌, OnOk, Some, None};
ghost use Rattle.driver.specs.Monitors.{is_full, new_monitor, told};
ghost use Rattle.driver.specs.Retiring.{dead_below, dead_boot, greatest, is_to_restart, restart_behind, restart_if, with_seen};
ghost use Rattle.driver.specs.Leading.{term_of};
ghost use Rattle.driver.specs.Hearing.{boot_up, turned_away, turned_away_news};
ghost use Rattle.driver.specs.Telling.{ordered, told_to};
ghost use Rattle.driver.specs.Waking.{waited_longer};

mod clock;
mod hanging;
mod hearing;
mod reading;
mod standing;

use crate::backoff::Backoff;
use crate::news::News;
use crate::order::Now;
use crate::orders::Orders;
use crate::settings::Settings;
use crate::timer::Timer;
pub use hanging::{hang_limit, quiet_limit};
pub use hearing::Heard;
use node_notes::{Note, Progress, Status};
use raft_log::{BATCH_LIMIT, NodeId};
pub use reading::reads_for;
use standing::{Claimed, Following, LastBeat, Outage, Presence, Visitors};
use std::alloc::AllocError;
use wire_bytes::{LAST_NUMBER, Number};

/// The most nodes in a group.
pub const MOST_NODES: usize = wire_bytes::MOST_NODES as usize;

/// The longest wait before a node that is down is started again, in milliseconds.
// A full disk is not pestered, and a node that can start again is up within a minute.
const LONGEST: u32 = 60_000;

/// After how many timeouts without an answer a node counts as dead.
const DEAD: u64 = 10;

/// While this many notes of a node are not done, nothing more is read for it: else its beats would wait after all that
/// was read, and the other nodes would choose another leader. A leader saves as many in one save, which may take some
/// milliseconds on a slow disk.
const MOST_WAITING: u64 = BATCH_LIMIT as u64;

/// What the driver knows of one node, and which notes the clock sends it.
#[derive(Drop)]
pub struct NodeMonitor {
    id: NodeId,
    status: Option<Status>,
    /// How far its worker is.
    progress: Progress,
    following: Following,
    beat: LastBeat,
    claimed: Option<Claimed>,
    /// Set while it is down.
    down: Option<Outage>,
    /// How long the next wait is before it is started again.
    backoff: Backoff,
    /// The note that last restarted it while it was up.
    restart_note: u64,
    presence: Presence,
    visitors: Visitors,
}

impl NodeMonitor {
    /// The monitor of a node that was just started.
    pub fn new(id: NodeId, settings: &Settings, now: &Now) -> NodeMonitor
        ensures { result ≡ new_monitor settings.now now.now.ms id }
    {
        NodeMonitor {
            id,
            status: None,
            progress: Progress {
                done: 0,
                waiting: 0,
                lost: 0,
                contacts: 0,
            },
            following: Following {
                last_leader_contact: Timer::from(now.ms),
                has_yielded: false,
            },
            beat: LastBeat {
                at: Timer::from(now.ms),
                note: 0,
            },
            claimed: None,
            down: None,
            backoff: Backoff::new(settings.timeout_ms as u32, LONGEST),
            restart_note: 0,
            presence: Presence {
                last_report: Timer::from(now.ms),
                up: Timer::from(now.ms),
                is_hanging: false,
            },
            visitors: Visitors {
                greatest_boot: None,
                has_turned_away: false,
            },
        }
    }

    pub fn id(&self) -> NodeId
        ensures { result ≡ self.now.id }
    {
        self.id
    }

    /// How far its worker is.
    pub fn progress(&self) -> Progress
        ensures { result ≡ self.now.progress }
    {
        self.progress
    }

    /// Whether so many of its notes wait that no more may.
    pub fn is_full(&self, orders: &Orders) -> bool
        ensures { result ≡ is_full (told_to orders.now self.now.id) self.now.progress }
    {
        let told = orders.told_to(self.id);
        let begun = self.progress.waiting;
        told.saturating_sub(self.progress.done)
            .saturating_add(begun)
            >= MOST_WAITING
    }

    /// The run in which it is up, if it is.
    pub fn boot(&self) -> Option<Number>
        ensures { result ≡ boot_up self.now.status }
    {
        let Some(status) = &self.status else {
            return None;
        };
        match status.down {
            Some(_) => None,
            None => Some(status.boot),
        }
    }

    /// A client of it has an origin with this boot.
    pub fn see(&mut self, boot: Number)
        ensures { self.new ≡ with_seen boot self.old }
    {
        self.visitors.greatest_boot = Some(self.greatest_seen(boot));
    }

    /// The greater of this boot and the greatest in the origin of a client of it.
    fn greatest_seen(&self, boot: Number) -> Number
        ensures { result ≡ greatest self.now.visitors.greatest_boot boot }
    {
        match self.visitors.greatest_boot {
            Some(seen) if boot.value() <= seen.value() => seen,
            _ => boot,
        }
    }

    /// A client connected though the node is not up: logged once until it is up again.
    pub fn turn_away(&mut self, orders: &mut Orders) -> Result<(), AllocError>
        ensures told { OnOk result (orders.new ≡ ordered orders.old (turned_away_news self.old)) }
        ensures monitor { OnOk result (self.new ≡ turned_away self.old) }
    {
        if !self.visitors.has_turned_away {
            self.visitors.has_turned_away = true;
            orders.log(News::TurnedAway(self.id))?;
        }
        Ok(())
    }

    /// The runs below this boot are to be retired: if the node is down, those up to the greatest boot known of it; if
    /// it has not answered for ten timeouts, or its clients were told that it hangs, those up to the greatest boot seen
    /// in an origin, if there was one.
    pub fn dead_below(&self, now: &Now, settings: &Settings) -> Option<Number>
        ensures { result ≡ dead_below self.now settings.now.timeout_ms now.now.ms }
    {
        let boot = self.dead_boot(now, settings)?;
        if boot.value() >= LAST_NUMBER {
            return None;
        }
        Some(Number::new(boot.value() + 1))
    }

    /// The last of its runs that is over, as far as is known.
    fn dead_boot(&self, now: &Now, settings: &Settings) -> Option<Number>
        ensures { result ≡ dead_boot self.now settings.now.timeout_ms now.now.ms }
    {
        let silence = DEAD * settings.timeout_ms as u64;
        match (self.down, self.status) {
            (Some(_), Some(status)) => Some(self.greatest_seen(status.boot)),
            _
                if self.presence.is_hanging
                    || self.presence.last_report.has_passed(silence, now.ms) => {
                self.visitors.greatest_boot
            }
            _ => None,
        }
    }

    /// The runs of the node below this one are gone for all nodes: if it is up in one of them it is restarted, so that
    /// it gets a run whose clients count. At most one such note waits.
    pub fn restart_below(&mut self, floor: Number, orders: &mut Orders) -> Result<(), AllocError>
        ensures told { OnOk result (orders.new
            ≡ ordered orders.old (told self.old.id (restart_if self.old (Some floor)))) }
        ensures monitor { OnOk result (self.new
            ≡ restart_behind orders.old self.old (restart_if self.old (Some floor))) }
    {
        if self.is_to_restart(floor) {
            self.restart_note = orders.submit(self.id, Note::Restart)?;
        }
        Ok(())
    }

    /// Whether it is up in a run below this one, and was not just restarted.
    fn is_to_restart(&self, floor: Number) -> bool
        ensures { result ≡ is_to_restart self.now floor }
    {
        let Some(boot) = self.boot() else {
            return false;
        };
        boot.value() < floor.value() && self.restart_note <= self.progress.done
    }

    /// The state of the node when it was last heard from.
    pub fn status(&self) -> Option<Status>
        ensures { result ≡ self.now.status }
    {
        self.status
    }

    /// The term in which it leads, if it is up and leads.
    pub fn leading(&self) -> Option<Number>
        ensures { result ≡ term_of self.now.status }
    {
        let Some(status) = &self.status else {
            return None;
        };
        if status.leads() {
            Some(status.term)
        } else {
            None
        }
    }

    /// This many milliseconds do not count as silence: not of the node, and not of the leader that it heard of.
    pub fn wait_longer(&mut self, ms: u64)
        ensures { self.new ≡ waited_longer ms self.old }
    {
        self.presence.last_report = Timer::from(self.presence.last_report.since.saturating_add(ms));
        self.following.last_leader_contact = Timer::from(
            self.following.last_leader_contact.since.saturating_add(ms),
        );
    }
}
