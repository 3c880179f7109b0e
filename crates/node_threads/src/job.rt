//! What a worker has to do.
ghost use Rattle.std.specs.Prelude.{◌≡◌, IfErr, IfOk, None, Some};
ghost use Rattle.node_threads.specs.Faults.{IsUndelivered};
ghost use Rattle.node_threads.specs.Reports.{is_end, is_told, waits};
ghost use Rattle.node_threads.specs.Together.{appended, input_in, is_idle};

use crate::cluster_fault::ClusterFault;
use crossbeam_channel::{SendError, Sender};
use machine_laws::{Hosted, Machine};
use node_cells::CellFault;
use node_notes::{Note, Status};
use raft_node::Looked;
use std::sync::Wait;
use wire_bytes::Wire;
use world_views::NodeInput;

/// What a worker has to do.
#[derive(Drop)]
pub enum Job<M: Hosted> {
    /// A note is for its node.
    Note(Note<M::Command, M::Line>),
    /// A target is to be played, once the node has applied its log up to a place.
    Look(u64, M::Target, Sender<Result<Looked<M::Played>, CellFault>>),
    /// A mark is to be asked for.
    Mark(Sender<Result<u64, CellFault>>),
    /// A target is to be played, if the node has applied its mark of this number, or a later one.
    LookAfter(u64, M::Target, Sender<Result<Looked<M::Played>, CellFault>>),
    /// The node is to be started again.
    Restart(Sender<Result<(), CellFault>>),
    /// The state of the node is asked for.
    Status(Sender<Status>),
}

impl<M: Hosted> Job<M> {
    /// Whether the driver sent this, so that it counts as done. What another worker sends, or a
    /// caller that waits for its answer, does not count.
    pub fn is_told(&self) -> bool
        ensures { result ≡ is_told self.now }
    {
        match self {
            Job::Note(Note::Wake) => false,
            Job::Note(_) => true,
            Job::Look(_, _, _) | Job::Mark(_) | Job::LookAfter(_, _, _) => false,
            Job::Restart(_) | Job::Status(_) => false,
        }
    }

    /// Whether it asks the worker to end.
    pub(crate) fn is_end(&self) -> bool
        ensures { result ≡ is_end self.now }
    {
        matches!(self, Job::Note(Note::End))
    }

    /// Whether it does nothing with the node, and asks nothing of it: a request waits until it is asked, and a wake is
    /// for the worker.
    pub(crate) fn is_idle(&self) -> bool
        ensures { result ≡ is_idle self.now }
    {
        match self {
            Job::Note(Note::Ask(_) | Note::Wake) => true,
            _ => false,
        }
    }

    /// The input that it is for, if a leader only appends by it; else the job.
    pub(crate) fn into_append(self) -> Result<NodeInput<M::Command, M::Line>, Job<M>>
        ensures input { IfOk result (λ input. appended self ≡ Some input) }
        ensures job { IfErr result (λ job. (job ≡ self) × (appended self ≡ None)) }
    {
        match self {
            Job::Note(note) => match append_of(note) {
                Ok(input) => Ok(input),
                Err(note) => Err(Job::Note(note)),
            },
            other => Err(other),
        }
    }

    /// Whether it is a look that may come too early: there may be many, and most do nothing.
    pub fn waits(&self) -> bool
        ensures { result ≡ waits self.now }
    {
        matches!(self, Job::LookAfter(_, _, _))
    }
}

/// The input that a note is for, if a leader only appends by it; else the note.
fn append_of<B: Wire, L>(note: Note<B, L>) -> Result<NodeInput<B, L>, Note<B, L>>
    ensures input { IfOk result (λ input. input_in note ≡ Some input) }
    ensures note { IfErr result (λ other. (other ≡ note) × (input_in note ≡ None)) }
{
    match note {
        Note::Opened => Ok(NodeInput::Opened),
        Note::Closed => Ok(NodeInput::Closed),
        Note::Heard(at, line) => Ok(NodeInput::Heard(at, line)),
        Note::Claim => Ok(NodeInput::Claim),
        other => Err(other),
    }
}

/// Puts something into an inbox. `Stopped` if nobody takes from it any more.
pub fn put<T: Drop>(rt: &impl Wait, inbox: &Sender<T>, message: T) -> Result<(), ClusterFault>
    ensures { IfErr result IsUndelivered }
{
    match inbox.send(rt, message) {
        Ok(()) => Ok(()),
        Err(SendError::OutOfMemory(_)) => Err(ClusterFault::Memory),
        Err(SendError::Disconnected(_)) => Err(ClusterFault::Stopped),
    }
}
