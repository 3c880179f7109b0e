//! Whom a worker informs: the workers whose nodes it posted to, and its outlet.
ghost use Rattle.std.specs.Prelude.{◌≡◌, ◌↔◌, IsTrue};
ghost use Rattle.node_threads.specs.Reports.{IsGrownAlone, IsStatusOf, leads_in, told_fault};

use crate::job::{Job, put};
use crossbeam_channel::Sender;
use machine_laws::{Hosted, Machine, Marking};
use node_cells::{CellFault, NodeCell, Upstream};
use node_notes::{Note, Progress, Status};
use raft_node::{Cause, NodeFault};
use stable_store::Stable;
use std::sync::Wait;

/// The most notes that may be done without a report. The driver stops at 256 that it does not know to be done, and
/// should hear of them well before.
const MOST_UNTOLD: u64 = 64;

/// The worker of the node of this number is to look into its mailboxes.
pub fn wake<M: Hosted>(rt: &impl Wait, inboxes: &[Sender<Job<M>>], node: u8) {
    if node < 1 {
        return;
    }
    if let Some(inbox) = inboxes.get(node as usize - 1) {
        let _ = put(rt, inbox, Job::Note(Note::Wake));
    }
}

/// The state of the node of a cell.
pub fn status<M: Marking, S: Stable<M::Command>, U: Upstream>(cell: &NodeCell<M, S, U>) -> Status
    ensures { IsStatusOf M.next_claim cell.now.parts result }
{
    Status::of(cell.state(), cell.next_claim(), cell.down())
}

/// Whether the node of a cell leads, and is up.
pub fn leads<M: Marking, S: Stable<M::Command>, U: Upstream>(cell: &NodeCell<M, S, U>) -> bool
    ensures { result ≡ leads_in cell.now.parts }
{
    status(cell).leads()
}

/// A cell's fault, as it is reported of the node.
pub fn told_fault(fault: CellFault) -> NodeFault
    ensures { result ≡ told_fault fault }
{
    match fault {
        CellFault::Node(fault) => fault,
        CellFault::Memory | CellFault::Spent => NodeFault::Down(Cause::Memory),
    }
}

/// What is reported of a node: its state, and how far its worker is.
#[derive(Clone, Copy)]
pub struct Told {
    pub status: Status,
    pub progress: Progress,
}

impl Told {
    /// Whether two reports would be the same.
    pub fn is_same(&self, other: &Told) -> bool
        ensures { IsTrue result ↔ (self.now ≡ other.now) }
    {
        is_same_status(&self.status, &other.status)
            && is_same_progress(&self.progress, &other.progress)
    }

    /// Whether the next report would differ only in that the log grew, by entries that are not agreed yet, in how often
    /// a leader was heard, and in that a few notes are done.
    pub fn has_grown_alone(&self, now: &Told) -> bool
        ensures { IsTrue result ↔ IsGrownAlone self.now now.now }
    {
        let status = Status {
            last: now.status.last,
            ..self.status
        };
        let progress = Progress {
            done: now.progress.done,
            contacts: now.progress.contacts,
            ..self.progress
        };
        now.status.commit < now.status.last
            && now.progress.done.saturating_sub(self.progress.done) <= MOST_UNTOLD
            && Told { status, progress }.is_same(now)
    }
}

fn is_same_status(one: &Status, other: &Status) -> bool
    ensures { IsTrue result ↔ (one.now ≡ other.now) }
{
    one.role == other.role
        && one.boot == other.boot
        && one.term == other.term
        && one.last == other.last
        && one.commit == other.commit
        && one.applied == other.applied
        && one.session == other.session
        && one.next_claim == other.next_claim
        && one.down == other.down
}

fn is_same_progress(one: &Progress, other: &Progress) -> bool
    ensures { IsTrue result ↔ (one.now ≡ other.now) }
{
    one.done == other.done
        && one.waiting == other.waiting
        && one.lost == other.lost
        && one.contacts == other.contacts
}
