//! A worker whose node is not open yet because its store is not there: the node is down until then.
ghost use Rattle.std.specs.Prelude.{◌≡◌, ◌⊎◌, Some, true};
ghost use Rattle.raft_node.specs.Parts.{keeper};
ghost use Rattle.node_threads.specs.declared.place.Place.TheVariants.{Late, Open};
ghost use Rattle.raft_node.specs.declared.node_fault.NodeFault.TheVariants.{Down};
ghost use Rattle.node_threads.specs.Late.{HasTakenDown, HasWaited, IsStepOf, IsStepOfNote, StandsDown, after_down, after_note, status_down, told_down};
ghost use Rattle.node_threads.specs.Rounds.{with_fault};
ghost use Rattle.node_threads.specs.Places.{HasTriedLate, HasWorked};
ghost use Rattle.node_threads.specs.Telling.{HasTold, IsUntold};
ghost use Rattle.node_threads.specs.Waiting.{HeedsJob, HeedsNote, account_of};

use crate::gate::Gate;
use crate::inflow::{Inflow, Next};
use crate::job::{Job, put};
use crate::opener::Opener;
use crate::outlet::Outlet;
use crate::place::Place;
use crate::worker_loop::WorkerLoop;
use crate::worker_loop::telling::Told;
use crossbeam_channel::Sender;
use machine_laws::{Hosted, Machine, Marking};
use node_cells::{CellFault, NodeCell, UnopenedCell, Upstream};
use node_notes::{Note, Progress, Status};
use raft_log::{NodeId, Role};
use raft_node::{Cause, NodeFault};
use stable_store::Stable;
use std::sync::Wait;
use wire_bytes::Number;

/// The result of a job for a node that is not open yet.
#[derive(Drop)]
pub enum DownStep {
    /// The worker is asked to end, or its inbox has no senders left.
    Over,
    /// The node stays down.
    Stay,
    /// The node is to be started again, and the caller that waits for that is answered here.
    Restart(Option<Sender<Result<(), CellFault>>>),
}

impl<M: Marking, G: Gate + Drop, O: Outlet<M::Effect>> WorkerLoop<M, G, O> {
    /// Works with a node that was opened, until it is asked to end.
    pub fn work_open<R: Wait, S: Stable<M::Command>, U: Upstream, L: Opener<S>, I: Inflow<Job<M>>>(
        &mut self,
        rt: &R,
        cell: NodeCell<M, S, U>,
        inbox: &mut I,
    ) -> Place<M, S, U, L>
        ensures { HasWorked (keeper S.saved S.may_stand S.condition) L.gives (Open cell) result }
    {
        let mut cell = cell;
        self.work(rt, &mut cell, inbox);
        Place::Open(cell)
    }

    /// Waits for the store of a node that is not open yet, and then works with the node as with every other, until it
    /// is asked to end.
    pub fn work_late<R: Wait, S: Stable<M::Command>, U: Upstream, L: Opener<S>, I: Inflow<Job<M>>>(
        &mut self,
        rt: &R,
        cell: UnopenedCell<M, U>,
        opener: L,
        inbox: &mut I,
    ) -> Place<M, S, U, L>
        ensures { HasWorked (keeper S.saved S.may_stand S.condition) L.gives (Late cell opener)
            result }
    {
        match self.wait_for_store(rt, cell, opener, inbox) {
            Place::Open(cell) => self.work_open(rt, cell, inbox),
            Place::Late(cell, opener) => Place::Late(cell, opener),
        }
    }

    /// Reports that the node is down, and asks its opener for the store each time it is to be started again, until the
    /// node is open, or the worker is asked to end.
    fn wait_for_store<R: Wait, S: Stable<M::Command>, U: Upstream, L: Opener<S>, I: Inflow<Job<M>>>(
        &mut self,
        rt: &R,
        cell: UnopenedCell<M, U>,
        opener: L,
        inbox: &mut I,
    ) -> Place<M, S, U, L>
        ensures { HasWaited (keeper S.saved S.may_stand S.condition) L.gives cell opener result }
    {
        let mut cell = cell;
        let mut opener = opener;
        let mut cause = Cause::Store;
        for _ in rt.forever() {
            let all_told = self.tell_down(rt, cell.id(), cause);
            match self.take_down(rt, inbox, all_told, cause) {
                DownStep::Over => break,
                DownStep::Stay => {}
                DownStep::Restart(reply) => match open_late(cell, &mut opener) {
                    Ok(open) => {
                        answer(rt, reply, Ok(()));
                        return Place::Open(open);
                    }
                    Err((back, fault)) => {
                        cell = back;
                        cause = fault.cause();
                        answer(rt, reply, Err(CellFault::Node(fault)));
                    }
                },
            }
        }
        Place::Late(cell, opener)
    }

    /// Reports that the node is down, if that is new. False if the report was not taken; then it is reported again.
    fn tell_down<R: Wait>(&mut self, rt: &R, node: NodeId, cause: Cause) -> bool
        ensures told { IsUntold self.old self.new
            ⊎ HasTold O.has_taken (StandsDown cause self.old) node self.old self.new }
        ensures known { result ≡ true → (self.new.told ≡ Some (told_down cause self.old)) }
        ensures requests { account_of self.new ≡ account_of self.old }
    {
        let now = self.stand_down(cause);
        if !self.is_news(&now) {
            return true;
        }
        self.tell_now(rt, node, now)
    }

    /// The state of a node that is down because its store is not there, and how far its worker is.
    fn stand_down(&self, cause: Cause) -> Told
        ensures { result ≡ told_down cause self.now }
    {
        let progress = Progress {
            done: self.done,
            waiting: self.requests.waiting.len() as u64,
            lost: self.requests.lost,
            contacts: self.contacts,
        };
        Told {
            status: status_down(cause),
            progress,
        }
    }

    /// Does the next job as at a node that is down. Waits for it if it may.
    fn take_down<R: Wait, I: Inflow<Job<M>>>(
        &mut self,
        rt: &R,
        inbox: &mut I,
        may_wait: bool,
        cause: Cause,
    ) -> DownStep
        ensures { HasTakenDown I.gives may_wait inbox.old (account_of self.old) result
            inbox.new (account_of self.new) }
    {
        match inbox.next(rt, may_wait) {
            Next::Job(job) => {
                if job.is_end() {
                    return DownStep::Over;
                }
                self.count(job.is_told());
                self.do_down(rt, job, cause)
            }
            Next::Nothing => DownStep::Stay,
            Next::Over => DownStep::Over,
        }
    }

    /// Does a job as at a node that is down.
    fn do_down<R: Wait>(&mut self, rt: &R, job: Job<M>, cause: Cause) -> DownStep
        ensures step { IsStepOf job result }
        ensures requests { HeedsJob job (account_of self.old) (account_of self.new) }
        ensures round { self.new.round ≡ after_down job cause self.old.round }
    {
        let fault = CellFault::Node(NodeFault::Down(cause));
        match job {
            Job::Note(note) => return self.follow_down(note, cause),
            Job::Look(_place, _target, reply) => {
                let _ = put(rt, &reply, Err(fault));
            }
            Job::LookAfter(_number, _target, reply) => {
                let _ = put(rt, &reply, Err(fault));
            }
            Job::Mark(reply) => {
                let _ = put(rt, &reply, Err(fault));
            }
            Job::Restart(reply) => {
                self.requests.end_run();
                return DownStep::Restart(Some(reply));
            }
            Job::Status(reply) => {
                let _ = put(rt, &reply, status_down(cause));
            }
        }
        DownStep::Stay
    }

    /// Does a note as at a node that is down: a request waits, and a turn does nothing.
    fn follow_down(&mut self, note: Note<M::Command, M::Line>, cause: Cause) -> DownStep
        ensures step { IsStepOfNote note result }
        ensures requests { HeedsNote note (account_of self.old) (account_of self.new) }
        ensures round { self.new.round ≡ after_note note cause self.old.round }
    {
        match note {
            Note::Ask(body) => self.requests.tell(self.done, body),
            Note::Restart => {
                self.requests.end_run();
                return DownStep::Restart(None);
            }
            Note::Timeout(_) | Note::Beat | Note::Opened | Note::Closed => self.fail_down(cause),
            Note::Heard(_, _) | Note::Claim => self.fail_down(cause),
            Note::Wake | Note::End => {}
        }
        DownStep::Stay
    }

    /// A turn does nothing, since the node is down.
    fn fail_down(&mut self, cause: Cause)
        ensures { self.new ≡ record self.old
            { round = with_fault (Down cause) self.old.round } }
    {
        self.round.fail(CellFault::Node(NodeFault::Down(cause)));
    }
}

/// Opens the node over its store, if that is there.
fn open_late<M: Marking, S: Stable<M::Command>, U: Upstream, L: Opener<S>>(
    cell: UnopenedCell<M, U>,
    opener: &mut L,
) -> Result<NodeCell<M, S, U>, (UnopenedCell<M, U>, NodeFault)>
    ensures cell { HasTriedLate (keeper S.saved S.may_stand S.condition) L.gives cell opener.old
        result }
    ensures opener { (store : S) → L.gives opener.new store → L.gives opener.old store }
{
    match opener.open() {
        Ok(store) => cell.open(store),
        Err(cause) => Err((cell, NodeFault::Down(cause))),
    }
}

/// Answers the caller that waits for a restart, if there is one.
fn answer<R: Wait>(
    rt: &R,
    reply: Option<Sender<Result<(), CellFault>>>,
    outcome: Result<(), CellFault>,
) {
    if let Some(reply) = reply {
        let _ = put(rt, &reply, outcome);
    }
}

/// The state of a node whose store is not there: it has no run, and nothing is known of it.
fn status_down(cause: Cause) -> Status
    ensures { result ≡ status_down cause }
{
    let none = Number::new(0);
    Status {
        role: Role::Follower,
        boot: none,
        term: none,
        last: none,
        commit: none,
        applied: none,
        session: None,
        next_claim: None,
        down: Some(cause),
    }
}
