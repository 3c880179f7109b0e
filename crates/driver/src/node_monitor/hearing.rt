//! What a node's worker reports about the node.
ghost use Rattle.std.specs.Prelude.{◌≡◌, ◌++◌, ◌&&◌, IfOk, OnOk, None, Some};
ghost use Rattle.driver.specs.Hearing.{answers_news, down_behind, down_news, elected_news, heard_behind, heard_news};
ghost use Rattle.driver.specs.Hearing.{heard_of, is_new_run, is_raised, led_in, up_behind, up_news};
ghost use Rattle.driver.specs.Hearing.{progressed, settled, waiting_behind, was_up};
ghost use Rattle.driver.specs.Telling.{ordered, told_to};

use crate::news::News;
use crate::node_monitor::NodeMonitor;
use crate::node_monitor::standing::{Claimed, Outage};
use crate::order::Now;
use crate::orders::Orders;
use crate::timer::Timer;
use node_notes::{Progress, Status};
use raft_log::Role;
use raft_node::Cause;
use std::alloc::AllocError;
use wire_bytes::Number;

/// How long a node has to be up until earlier failures no longer count, in milliseconds: one that fails again and again
/// within a minute is started less and less often.
const GOOD_RUN: u64 = 60_000;

/// What is new in a node's report.
#[derive(Clone, Copy)]
pub struct Heard {
    /// A run of it began.
    pub is_new: bool,
    /// Requests sent to it may be lost, and were not known to be.
    pub has_lost: bool,
}

impl NodeMonitor {
    /// The node's worker reported the node's state, and how far the worker is. Returns what is new.
    pub fn hear(
        &mut self,
        now: &Now,
        status: &Status,
        progress: &Progress,
        orders: &mut Orders,
    ) -> Result<Heard, AllocError>
        ensures new { IfOk result (λ heard. heard
            ≡ heard_of self.old (told_to orders.old self.old.id) status.now progress.now) }
        ensures told { OnOk result (orders.new
            ≡ ordered orders.old (heard_news self.old status.now)) }
        ensures monitor { OnOk result (self.new ≡ heard_behind self.old now.now.ms
            (told_to orders.old self.old.id) status.now progress.now) }
    {
        let was_up = self.is_up();
        let is_new = status.down.is_none() && (!was_up || self.is_new_run(status));
        let lost = self.progress.lost;
        let told = orders.told_to(self.id);
        self.hear_leading(status, orders)?;
        self.hear_term(now, status, self.progress.contacts < progress.contacts);
        self.status = Some(*status);
        self.progress = progressed(&self.progress, told, progress);
        self.claimed = settled(self.claimed, status, self.progress.done);
        match status.down {
            Some(cause) => self.hear_down(now, cause, orders)?,
            None => self.hear_up(now, was_up, is_new, status.boot, orders)?,
        }
        let has_lost = lost < self.progress.lost;
        Ok(Heard { is_new, has_lost })
    }

    /// A leader was heard of, or the term of a following node rose, so that it may have granted its vote: it waits anew
    /// for a leader.
    fn hear_term(&mut self, now: &Now, status: &Status, led: bool)
        ensures { self.new ≡ waiting_behind self.old now.now.ms status.now led }
    {
        let is_raised = self.is_raised(status);
        let is_led = led || status.leads();
        if is_led || is_raised && !self.following.has_yielded {
            self.following.last_leader_contact = Timer::from(now.ms);
        }
        self.following.has_yielded = !is_led && (self.following.has_yielded || is_raised);
    }

    /// Whether it follows, and its term rose.
    fn is_raised(&self, status: &Status) -> bool
        ensures { result ≡ is_raised self.now.status status.now }
    {
        let Some(before) = &self.status else {
            return false;
        };
        match status.role {
            Role::Follower => before.term.value() < status.term.value(),
            Role::Candidate | Role::Leader => false,
        }
    }

    /// Whether this is of another run than the last report.
    fn is_new_run(&self, status: &Status) -> bool
        ensures { result ≡ is_new_run self.now.status status.now }
    {
        match &self.status {
            Some(before) => before.boot.value() != status.boot.value(),
            None => true,
        }
    }

    /// Whether an earlier report said that it leads in this term.
    fn led_in(&self, term: Number) -> bool
        ensures { result ≡ led_in self.now.status term }
    {
        match &self.status {
            Some(before) => before.leads() && before.term.value() == term.value(),
            None => false,
        }
    }

    /// Whether it was up when it was last heard from.
    fn is_up(&self) -> bool
        ensures { result ≡ was_up self.now.status }
    {
        match &self.status {
            Some(before) => before.down.is_none(),
            None => false,
        }
    }

    /// A node that leads, and did not lead in this term before, was elected.
    fn hear_leading(&self, status: &Status, orders: &mut Orders) -> Result<(), AllocError>
        ensures { OnOk result (orders.new
            ≡ ordered orders.old (elected_news self.now status.now)) }
    {
        if status.leads() && !self.led_in(status.term) {
            orders.log(News::Elected(self.id, status.term))?;
        }
        Ok(())
    }

    /// It is down: it is started again after a wait from the first report of it on, and after the shortest wait if it
    /// was up for a minute.
    fn hear_down(&mut self, now: &Now, cause: Cause, orders: &mut Orders) -> Result<(), AllocError>
        ensures told { OnOk result (orders.new
            ≡ ordered orders.old (down_news self.old.id cause self.old.down)) }
        ensures monitor { OnOk result (self.new ≡ down_behind self.old now.now.ms self.old.down) }
    {
        if self.down.is_some() {
            return Ok(());
        }
        if self.presence.up.has_passed(GOOD_RUN, now.ms) {
            self.backoff.reset();
        }
        self.down = Some(Outage::from(now.ms, self.backoff.fail()));
        self.presence.is_hanging = false;
        orders.log(News::Down(self.id, cause))
    }

    /// It is up. One that hung takes clients again only in a new run, since for the others the run that hung is over.
    fn hear_up(
        &mut self,
        now: &Now,
        was_up: bool,
        is_new: bool,
        boot: Number,
        orders: &mut Orders,
    ) -> Result<(), AllocError>
        ensures told { OnOk result (orders.new ≡ ordered orders.old
            (answers_news self.old.id (self.old.presence.is_hanging && is_new)
            ++ up_news self.old.id boot was_up)) }
        ensures monitor { OnOk result
            (self.new ≡ up_behind self.old now.now.ms is_new was_up) }
    {
        self.down = None;
        self.presence.last_report = Timer::from(now.ms);
        if self.presence.is_hanging && is_new {
            self.presence.is_hanging = false;
            orders.log(News::Answers(self.id))?;
        }
        self.visitors.has_turned_away = self.presence.is_hanging;
        if !was_up {
            self.following.last_leader_contact = Timer::from(now.ms);
            self.presence.up = Timer::from(now.ms);
            orders.log(News::Up(self.id, boot))?;
        }
        Ok(())
    }
}

/// What is known of the last claim of a node, given its state and how many of its notes are done.
fn settled(claimed: Option<Claimed>, status: &Status, done: u64) -> Option<Claimed>
    ensures { result ≡ settled claimed status.now done }
{
    let claim = claimed?;
    let is_settled = claim.note <= done && status.applied.value() == status.last.value();
    Some(Claimed {
        is_settled: claim.is_settled || is_settled,
        ..claim
    })
}

/// How far a worker with this many notes is, by what was known and what it reports: it never goes back, and is never
/// further than its notes.
fn progressed(known: &Progress, told: u64, heard: &Progress) -> Progress
    ensures { result ≡ progressed known.now told heard.now }
{
    Progress {
        done: known.done.max(heard.done.min(told)),
        waiting: heard.waiting,
        lost: known.lost.max(heard.lost.min(told)),
        contacts: known.contacts.max(heard.contacts),
    }
}
