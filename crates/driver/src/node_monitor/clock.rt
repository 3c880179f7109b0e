//! The notes that the clock sends to a node, and when.
ghost use Rattle.std.specs.Prelude.{◌≡◌, OnOk, Some, None, if◌then◌else◌, is_some};
ghost use Rattle.node_notes.specs.declared.note.Note.TheVariants.{Beat};
ghost use Rattle.driver.specs.Dropping.{has_waiting};
ghost use Rattle.driver.specs.Monitors.{beaten_at, claim_at, claim_due, monitor_behind, monitor_claimed};
ghost use Rattle.driver.specs.Monitors.{is_claimed, is_to_beat, line_to_claim, note_at, told};
ghost use Rattle.driver.specs.Telling.{ordered};

use crate::node_monitor::NodeMonitor;
use crate::node_monitor::standing::{Claimed, Following, LastBeat, Outage};
use crate::order::Now;
use crate::orders::Orders;
use crate::settings::Settings;
use crate::timer::Timer;
use node_notes::Note;
use std::alloc::AllocError;
use wire_bytes::{Number, SessionId};

/// How much longer each next node waits for a leader, in milliseconds.
const APART: u64 = 50;

impl NodeMonitor {
    /// Time passed, or a report of the node came: a leader sends now and then, a node that heard of no leader asks for
    /// votes, and one that is down is started again.
    #[tactic(auto, unfolding(crate::specs::Monitors::note_for, crate::specs::Monitors::note_up, crate::specs::Monitors::monitor_behind))]
    pub fn tick(
        &mut self,
        now: &Now,
        settings: &Settings,
        orders: &mut Orders,
    ) -> Result<(), AllocError>
        ensures told { OnOk result (orders.new
            ≡ ordered orders.old (told self.old.id (note_at self.old settings.now now.now.ms))) }
        ensures monitor { OnOk result (self.new ≡ monitor_behind orders.old self.old now.now.ms
            (note_at self.old settings.now now.now.ms)) }
    {
        let Some(status) = self.status else {
            return Ok(());
        };
        if let Some(outage) = self.down {
            if outage.has_waited(now.ms) {
                self.down = Some(Outage::from(now.ms, self.backoff.fail()));
                orders.submit(self.id, Note::Restart)?;
            }
            return Ok(());
        }
        if status.leads() {
            return self.tick_leader(now, settings, orders);
        }
        let wait = settings.timeout_ms as u64 + APART * self.id.value() as u64;
        if self.following.last_leader_contact.has_passed(wait, now.ms) {
            self.following = Following {
                last_leader_contact: Timer::from(now.ms),
                has_yielded: false,
            };
            orders.submit(self.id, Note::Timeout(self.progress.contacts))?;
        }
        Ok(())
    }

    /// A leader sends if it got no note to send for a while; at most one such note waits. When it has news it sends by
    /// itself.
    fn tick_leader(
        &mut self,
        now: &Now,
        settings: &Settings,
        orders: &mut Orders,
    ) -> Result<(), AllocError>
        ensures told { OnOk result (orders.new ≡ ordered orders.old (told self.old.id
            (if is_to_beat self.old settings.now now.now.ms then Some Beat else None))) }
        ensures monitor { OnOk result (self.new ≡ (if is_to_beat self.old settings.now now.now.ms
            then beaten_at orders.old self.old now.now.ms else self.old)) }
    {
        if !self.is_to_beat(now, settings) {
            return Ok(());
        }
        let note = orders.submit(self.id, Note::Beat)?;
        self.beat = LastBeat {
            at: Timer::from(now.ms),
            note,
        };
        Ok(())
    }

    /// Whether it is to send, if it leads.
    fn is_to_beat(&self, now: &Now, settings: &Settings) -> bool
        ensures { result ≡ is_to_beat self.now settings.now now.now.ms }
    {
        self.beat.at.has_passed(settings.beat_ms as u64, now.ms)
            && self.beat.note <= self.progress.done
    }

    /// Claims the next line for the session, if the node has one and a line may be claimed. The same claim is repeated
    /// only after a while, and only once it is known not to be in the log.
    pub fn claim(
        &mut self,
        now: &Now,
        settings: &Settings,
        may: bool,
        orders: &mut Orders,
    ) -> Result<(), AllocError>
        ensures told { OnOk result (orders.new ≡ ordered orders.old
            (told self.old.id (claim_at self.old settings.now now.now.ms may))) }
        ensures monitor { OnOk result (self.new ≡ monitor_claimed orders.old self.old now.now.ms
            may (claim_due self.old settings.now now.now.ms)) }
    {
        let Some((session, number)) = self.claim_due(now, settings) else {
            return Ok(());
        };
        if !may {
            return Ok(());
        }
        let note = orders.submit(self.id, Note::Claim)?;
        self.claimed = Some(Claimed {
            session,
            number,
            at: Timer::from(now.ms),
            note,
            is_settled: false,
        });
        Ok(())
    }

    /// The line to claim, if there is one without an earlier claim that may still be in the log.
    #[tactic(auto, unfolding(crate::specs::Monitors::claim_due))]
    fn claim_due(&self, now: &Now, settings: &Settings) -> Option<(SessionId, Number)>
        ensures { result ≡ claim_due self.now settings.now now.now.ms }
    {
        let (session, number) = self.line_to_claim()?;
        match self.claimed {
            Some(last) if last.is_of(now, settings, session, number) => None,
            _ => Some((session, number)),
        }
    }

    /// Whether there is a line to claim, now or later.
    pub fn has_line(&self) -> bool
        ensures { result ≡ is_some (line_to_claim self.now.status) }
    {
        self.line_to_claim().is_some()
    }

    /// Whether a line waits in the log, in whatever session it may be claimed, as far as is known.
    pub fn has_waiting(&self) -> bool
        ensures { result ≡ has_waiting self.now.status }
    {
        match self.status {
            Some(status) => status.next_claim.is_some(),
            None => false,
        }
    }

    /// The session that the node holds, and the number of the next line to claim.
    fn line_to_claim(&self) -> Option<(SessionId, Number)>
        ensures { result ≡ line_to_claim self.now.status }
    {
        let status = self.status?;
        let session = status.session?;
        let number = status.next_claim?;
        Some((session, number))
    }
}

impl Claimed {
    /// Whether the claim is of this line, and may be in the log or was made not long ago.
    fn is_of(&self, now: &Now, settings: &Settings, session: SessionId, number: Number) -> bool
        ensures { result ≡ is_claimed (Some self.now) settings.now.timeout_ms now.now.ms
            session number }
    {
        self.session == session
            && self.number == number
            && !(self.is_settled && self.at.has_passed(settings.timeout_ms as u64, now.ms))
    }
}
