//! The retirement of earlier runs of a node.
ghost use Rattle.std.specs.Prelude.{◌≡◌, OnOk, Some, nat_eq};
ghost use Rattle.node_notes.specs.declared.note.Note.TheVariants.{Ask};
ghost use Rattle.driver.specs.Monitors.{told};
ghost use Rattle.driver.specs.Retiring.{applied_floor, appended_by, asked_at, fresh, gone_body, is_due};
ghost use Rattle.driver.specs.Retiring.{lead_of, progress_after, standing_by};
ghost use Rattle.driver.specs.Telling.{ordered};

use crate::node_monitor::NodeMonitor;
use crate::order::Now;
use crate::orders::Orders;
use crate::settings::Settings;
use crate::timer::Timer;
use bouncer_tower::Tower;
use machine_laws::Hosted;
use node_notes::{Note, Status};
use raft_log::NodeId;
use std::alloc::AllocError;
use wire_bytes::Number;

/// A run of a node, and a term in which it led.
#[derive(Clone, Copy)]
pub struct Lead {
    pub boot: u64,
    pub term: u64,
}

/// What is known of the last ask.
#[derive(Clone, Copy)]
pub enum Progress {
    /// Its note, of this number, is not done yet; and how the node led when it was sent, if it did.
    Told(u64, Option<Lead>),
    /// It is in the log of a node that leads like this, at this place or before it.
    Appended(Lead, u64),
    /// It may be lost.
    Lost,
    /// It is applied.
    Applied,
}

/// The retirement of a node's runs below one: the group is asked to agree that they are gone, until that is known to be
/// applied.
#[derive(Clone, Copy)]
pub struct Retirement {
    node: NodeId,
    floor: Number,
    /// When it was asked last, and at which node.
    asked: Timer,
    via: NodeId,
    progress: Progress,
}

impl Retirement {
    /// A retirement that is to be asked for now.
    pub fn new(node: NodeId, floor: Number) -> Retirement
        ensures { result ≡ fresh node floor }
    {
        Retirement {
            node,
            floor,
            asked: Timer::from(0),
            via: node,
            progress: Progress::Lost,
        }
    }

    /// Runs with a smaller boot are gone.
    pub fn floor(&self) -> Number
        ensures { result ≡ self.now.floor }
    {
        self.floor
    }

    /// The runs of its node below this one are gone for all nodes, once that is known to be applied.
    pub fn applied_floor(&self) -> Option<Number>
        ensures { result ≡ applied_floor (Some self.now) }
    {
        match self.progress {
            Progress::Applied => Some(self.floor),
            Progress::Told(_, _) | Progress::Appended(_, _) | Progress::Lost => None,
        }
    }

    /// Whether it was last asked at this node.
    pub fn is_via(&self, node: NodeId) -> bool
        ensures { result ≡ nat_eq self.now.via node }
    {
        self.via == node
    }

    /// Whether it is to be asked for again: the last ask may be lost, and was not made just now.
    pub fn is_due(&self, now: &Now, settings: &Settings) -> bool
        ensures { result ≡ is_due self.now settings.now.timeout_ms now.now.ms }
    {
        match self.progress {
            Progress::Lost => self.asked.has_passed(settings.timeout_ms as u64, now.ms),
            Progress::Told(_, _) | Progress::Appended(_, _) | Progress::Applied => false,
        }
    }

    /// Asks for it at a node.
    pub fn ask(
        &mut self,
        now: &Now,
        monitor: &NodeMonitor,
        orders: &mut Orders,
    ) -> Result<(), AllocError>
        ensures told { OnOk result (orders.new ≡ ordered orders.old
            (told monitor.now.id (Some (Ask (gone_body self.old.node self.old.floor))))) }
        ensures retirement { OnOk result
            (self.new ≡ asked_at orders.old self.old now.now.ms monitor.now) }
    {
        let lead = match monitor.status() {
            Some(status) => lead_of(&status),
            None => None,
        };
        let body = <Tower as Hosted>::node_gone(self.node.value(), self.floor);
        let note = orders.submit(monitor.id(), Note::Ask(body))?;
        self.asked = Timer::from(now.ms);
        self.via = monitor.id();
        self.progress = Progress::Told(note, lead);
        Ok(())
    }

    /// A report of the node at which it was last asked: its state, how many of its notes are done, and whether a turn
    /// of it did nothing.
    pub fn hear(&mut self, status: &Status, done: u64, is_refused: bool)
        ensures { self.new ≡ record self.old
            { progress = progress_after self.old.progress status.now done is_refused } }
    {
        self.progress = progress_after(self.progress, status, done, is_refused);
    }
}

/// What is known of an ask after a report of the node that was asked.
#[tactic(auto, unfolding(crate::specs::Retiring::progress_after))]
fn progress_after(progress: Progress, status: &Status, done: u64, is_refused: bool) -> Progress
    ensures { result ≡ progress_after progress status.now done is_refused }
{
    match progress {
        Progress::Told(_, _) if is_refused => Progress::Lost,
        Progress::Told(note, lead) if done < note => Progress::Told(note, lead),
        Progress::Told(_, lead) => appended_by(lead, status),
        Progress::Appended(lead, place) => standing_by(lead, place, status),
        Progress::Lost => Progress::Lost,
        Progress::Applied => Progress::Applied,
    }
}

/// How a node in this state leads, if it does.
fn lead_of(status: &Status) -> Option<Lead>
    ensures { result ≡ lead_of status.now }
{
    if !status.leads() {
        return None;
    }
    Some(Lead {
        boot: status.boot.value(),
        term: status.term.value(),
    })
}

/// What is known of an ask that is done, given how the node led when it was sent, if it did: a leader has appended it
/// to its log.
fn appended_by(lead: Option<Lead>, status: &Status) -> Progress
    ensures { result ≡ appended_by lead status.now }
{
    match lead {
        Some(lead) => standing_by(lead, status.last.value(), status),
        None => Progress::Lost,
    }
}

/// What is known of an ask in the log of a node that led like this: as long as it does, its log only grows.
fn standing_by(lead: Lead, place: u64, status: &Status) -> Progress
    ensures { result ≡ standing_by lead place status.now }
{
    let still = status.leads()
        && lead.boot == status.boot.value()
        && lead.term == status.term.value();
    if !still {
        return Progress::Lost;
    }
    if place <= status.applied.value() {
        Progress::Applied
    } else {
        Progress::Appended(lead, place)
    }
}
