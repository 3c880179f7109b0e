//! The jobs of a worker.
ghost use Rattle.std.specs.Prelude.{◌≡◌, ◌+◌, ◌-◌, ◌^◌, ◌&&◌, [], min, nat_eq, nat_le, not, true, if◌then◌else◌};
ghost use Rattle.node_notes.specs.declared.note.Note.TheVariants.{Beat};
ghost use Rattle.node_threads.specs.Reports.{is_told, leads_in};
ghost use Rattle.node_threads.specs.Taking.{HasDoneGiven, gathered_piece};
ghost use Rattle.node_threads.specs.Together.{AreReady};
ghost use Rattle.node_threads.specs.Waiting.{HaveComeBack, HeedsJob, HeedsNote, account_of, counted};
ghost use Rattle.node_threads.specs.Work.{HasDone, HasDoneNote, HasTimedOut, IsTimedOutBy};

use crate::gate::Gate;
use crate::inflow::{Inflow, Next};
use crate::job::{Job, put};
use crate::outlet::Outlet;
use crate::worker_loop::WorkerLoop;
use crate::worker_loop::telling::{leads, status};
use machine_laws::{Hosted, Machine, Marking};
use node_cells::{NodeCell, Upstream};
use node_notes::Note;
use raft_log::BATCH_LIMIT;
use raft_node::Described;
use stable_store::Stable;
use std::sync::Wait;
use world_views::NodeInput;

/// The most jobs that a round does one by one: each may need a save of its own, and meanwhile the other nodes wait for
/// what a leader sends after them.
const MOST_ALONE: u64 = 16;

impl<M: Marking, G: Gate + Drop, O: Outlet<M::Effect>> WorkerLoop<M, G, O> {
    /// Does the jobs that are in the inbox, in order, and waits for the first one if it may. True if it is asked to
    /// end, or the inbox has no senders left.
    pub fn do_jobs<R: Wait, S: Stable<M::Command>, U: Upstream, I: Inflow<Job<M>>>(
        &mut self,
        rt: &R,
        cell: &mut NodeCell<M, S, U>,
        inbox: &mut I,
        may_wait: bool,
    ) -> bool
        ensures { HasDoneGiven (⟦<M as Described>⟧.machine cell.old.parts.ether.setup) U.tally
            M.marked M.mark I.gives may_wait [] inbox.old (account_of self.old) cell.old.parts result
            inbox.new (account_of self.new) cell.new.parts }
    {
        let mut gathered = Vec::new(self.alloc);
        let is_over = self.take_jobs(rt, cell, inbox, may_wait, &mut gathered);
        self.turn_all(rt, cell, gathered);
        is_over
    }

    /// Takes up the jobs that are in the inbox. Those that are gathered are still to be done.
    fn take_jobs<R: Wait, S: Stable<M::Command>, U: Upstream, I: Inflow<Job<M>>>(
        &mut self,
        rt: &R,
        cell: &mut NodeCell<M, S, U>,
        inbox: &mut I,
        may_wait: bool,
        gathered: &mut Vec<NodeInput<M::Command, M::Line>>,
    ) -> bool
        requires { gathered.old.items ≡ [] }
        ensures done { HasDoneGiven (⟦<M as Described>⟧.machine cell.old.parts.ether.setup) U.tally
            M.marked M.mark I.gives may_wait (gathered_piece gathered.new.items)
            inbox.old (account_of self.old) cell.old.parts result inbox.new (account_of self.new)
            cell.new.parts }
        ensures ready { AreReady gathered.new.items cell.new.parts }
    {
        let mut alone = 0u64;
        // One save covers what a leader only appends, so that a slow disk is waited for once: a round takes as many as
        // can be saved together.
        for place in 0..BATCH_LIMIT {
            match inbox.next(rt, waits_at(may_wait, place)) {
                Next::Job(job) => {
                    if job.is_end() {
                        return true;
                    }
                    if self.take_up(rt, cell, job, gathered) {
                        alone = alone.saturating_add(1);
                    }
                    if alone >= MOST_ALONE {
                        return false;
                    }
                }
                Next::Nothing => return false,
                Next::Over => return true,
            }
        }
        false
    }

    /// Does what a job says.
    pub fn do_job<R: Wait, S: Stable<M::Command>, U: Upstream>(
        &mut self,
        rt: &R,
        cell: &mut NodeCell<M, S, U>,
        job: Job<M>,
    )
        ensures done { HasDone (⟦<M as Described>⟧.machine cell.old.parts.ether.setup) U.tally
            M.marked M.mark job cell.old.parts cell.new.parts }
        ensures requests { HeedsJob job (account_of self.old) (account_of self.new) }
    {
        match job {
            Job::Note(note) => self.follow(rt, cell, note),
            Job::Look(from_place, target, reply) => {
                let _ = put(rt, &reply, cell.look(from_place, target));
            }
            Job::Mark(reply) => {
                let _ = put(rt, &reply, self.mark(rt, cell));
            }
            Job::LookAfter(number, target, reply) => {
                let _ = put(rt, &reply, cell.look_after(number, target));
            }
            Job::Restart(reply) => {
                self.requests.end_run();
                let _ = put(rt, &reply, cell.restart());
            }
            Job::Status(reply) => {
                let _ = put(rt, &reply, status(cell));
            }
        }
    }

    /// Takes up a job, which counts if the driver sent it.
    pub fn count(&mut self, is_told: bool)
        ensures { account_of self.new ≡ counted is_told (account_of self.old) }
    {
        if is_told {
            self.done = self.done.saturating_add(1);
        }
    }

    /// Does what a note says.
    fn follow<R: Wait, S: Stable<M::Command>, U: Upstream>(
        &mut self,
        rt: &R,
        cell: &mut NodeCell<M, S, U>,
        note: Note<M::Command, M::Line>,
    )
        ensures done { HasDoneNote (⟦<M as Described>⟧.machine cell.old.parts.ether.setup) U.tally
            note cell.old.parts cell.new.parts }
        ensures timeout { IsTimedOutBy (⟦<M as Described>⟧.machine cell.old.parts.ether.setup)
            U.tally self.new.contacts note cell.old.parts cell.new.parts }
        ensures beat { note ≡ Beat → self.new.has_untold_beat ≡ true }
        ensures requests { HeedsNote note (account_of self.old) (account_of self.new) }
    {
        match note {
            Note::Timeout(contacts) => self.time_out(rt, cell, contacts),
            Note::Ask(body) => self.requests.tell(self.done, body),
            Note::Restart => {
                self.requests.end_run();
                let _ = cell.restart();
            }
            Note::Beat => {
                self.has_untold_beat = true;
                self.turn(rt, cell, NodeInput::Beat);
            }
            Note::Opened => {
                self.turn(rt, cell, NodeInput::Opened);
            }
            Note::Closed => {
                self.turn(rt, cell, NodeInput::Closed);
            }
            Note::Heard(at, line) => {
                self.turn(rt, cell, NodeInput::Heard(at, line));
            }
            Note::Claim => {
                self.turn(rt, cell, NodeInput::Claim);
            }
            Note::Wake | Note::End => {}
        }
    }

    /// The node waited too long for a leader, unless it leads, or has heard of a leader more often than this by now. It
    /// takes the mailbox of its leader, too, whatever is on its way there.
    fn time_out<R: Wait, S: Stable<M::Command>, U: Upstream>(
        &mut self,
        rt: &R,
        cell: &mut NodeCell<M, S, U>,
        contacts: u64,
    )
        ensures turned { HasTimedOut (⟦<M as Described>⟧.machine cell.old.parts.ether.setup) U.tally
            (nat_le self.new.contacts contacts) cell.old.parts cell.new.parts }
        ensures requests { HaveComeBack (account_of self.old) (account_of self.new) }
    {
        self.take_all(rt, cell, None);
        if self.is_due(cell, contacts) {
            self.turn(rt, cell, NodeInput::Timeout);
        }
    }

    /// Whether the node does not lead, and has heard of a leader at most this often.
    fn is_due<S: Stable<M::Command>, U: Upstream>(
        &self,
        cell: &NodeCell<M, S, U>,
        contacts: u64,
    ) -> bool
        ensures { result ≡ (nat_le self.now.contacts contacts && not (leads_in cell.now.parts)) }
    {
        self.contacts <= contacts && !leads(cell)
    }
}

/// Whether the inbox may wait for what comes at this place of a round, from 0 on: only for the first, if it may wait
/// for that.
fn waits_at(may_wait: bool, place: usize) -> bool
    ensures { result ≡ (may_wait && nat_eq place 0) }
{
    may_wait && place == 0
}
