//! What a worker has besides its node's cell and its inbox, and what it does with them, in rounds.
ghost use Rattle.std.specs.Prelude.{◌≡◌, ◌&&◌, ◌⊎◌, IsTrue, false, length, true};
ghost use Rattle.raft_node.specs.declared.input.Input.TheVariants.{Beat};
ghost use Rattle.node_threads.specs.Homes.{IsSameHome};
ghost use Rattle.node_threads.specs.Reports.{HasKept, has_grown, is_news};
ghost use Rattle.node_threads.specs.Rounds.{none_woken};
ghost use Rattle.node_threads.specs.Served.{HasWorkedOff};
ghost use Rattle.node_threads.specs.Taking.{HasDoneRound};
ghost use Rattle.node_threads.specs.Telling.{HasReportedAll};
ghost use Rattle.node_threads.specs.Waiting.{HaveComeBack, account_of};
ghost use Rattle.node_threads.specs.Work.{HasBeaten, HasFailed, HasGoneRound};

use crate::beats::Beats;
use crate::gate::Gate;
use crate::inflow::Inflow;
use crate::job::Job;
use crate::outlet::Outlet;
use crate::worker_loop::requests::Requests;
use crate::worker_loop::round::Round;
use crate::worker_loop::telling::{Told, leads, wake};
use crossbeam_channel::Sender;
use machine_laws::{Hosted, Machine, Marking};
use node_cells::{NodeCell, Upstream};
use raft_log::NodeId;
use raft_node::Described;
use stable_store::Stable;
use std::alloc::Global;
use std::sync::{Arc, Wait};
use wire_bytes::{MOST_NODES, Number};
use world_views::NodeInput;

mod asking;
mod forwarding;
mod gathering;
mod jobs;
mod late;
mod messages;
mod reported;
mod reporting;
pub mod requests;
pub mod round;
mod telling;
mod turning;

/// What a worker has besides its node's cell and its inbox.
#[derive(Drop)]
pub struct WorkerLoop<M: Marking, G: Drop, O: Outlet<M::Effect>> {
    pub alloc: Global,
    pub id: NodeId,
    /// The inboxes of all workers, node 1's first.
    pub others: Vec<Sender<Job<M>>>,
    pub gate: Arc<G>,
    pub outlet: O,
    pub beats: Beats,
    /// How many turns it has come to.
    pub turns: u64,
    /// How many notes it has taken up.
    pub done: u64,
    /// How often its node has heard of the leader of its term.
    pub contacts: u64,
    pub requests: Requests<M::Command>,
    /// The node to which a request was last posted, if nothing was posted to it since.
    pub forwarded: Option<u8>,
    pub round: Round<M::Effect>,
    /// Its last report, if that was taken.
    pub told: Option<Told>,
    /// The last index of its node's log when the last round ended.
    pub seen: Number,
    /// Whether it did a beat for the clock, and has not reported it.
    pub has_untold_beat: bool,
    /// What its node had when it last sent as the leader of its term.
    pub beaten: Option<Beaten>,
    /// Whether nothing is left to do until a job comes.
    pub may_wait: bool,
}

/// What a leader had when it last sent: its term, the last place of its log, and what was agreed.
#[derive(Clone, Copy)]
pub struct Beaten {
    pub term: Number,
    pub last: Number,
    pub commit: Number,
}

impl<M: Marking, G: Gate + Drop, O: Outlet<M::Effect>> WorkerLoop<M, G, O> {
    /// Works in rounds, until it is asked to end.
    pub fn work<R: Wait, S: Stable<M::Command>, U: Upstream, I: Inflow<Job<M>>>(
        &mut self,
        rt: &R,
        cell: &mut NodeCell<M, S, U>,
        inbox: &mut I,
    )
        ensures home { IsSameHome cell.old.parts cell.new.parts }
        ensures rounds { HasWorkedOff (⟦<M as Described>⟧.machine cell.old.parts.ether.setup)
            U.tally M.marked M.mark I.gives self.old.may_wait inbox.old (account_of self.old)
            cell.old.parts inbox.new (account_of self.new) cell.new.parts }
    {
        for _ in rt.forever() {
            if !self.do_round(rt, cell, inbox) {
                break;
            }
        }
    }

    /// A round. False if it is asked to end, or its inbox has no senders left.
    fn do_round<R: Wait, S: Stable<M::Command>, U: Upstream, I: Inflow<Job<M>>>(
        &mut self,
        rt: &R,
        cell: &mut NodeCell<M, S, U>,
        inbox: &mut I,
    ) -> bool
        ensures home { IsSameHome cell.old.parts cell.new.parts }
        ensures round { HasDoneRound (⟦<M as Described>⟧.machine cell.old.parts.ether.setup) U.tally
            M.marked M.mark I.gives self.old.may_wait inbox.old (account_of self.old)
            cell.old.parts result self.new.may_wait inbox.new (account_of self.new)
            cell.new.parts }
        ensures reported { self.new.may_wait ≡ true
            → HasReportedAll M.next_claim cell.new.parts self.new }
    {
        let may_wait = self.may_wait;
        let is_over = self.do_jobs(rt, cell, inbox, may_wait);
        let all_done = self.go_round(rt, cell);
        self.may_wait = all_done;
        !is_over
    }

    /// What a round does after its jobs. False if there is more to do, even if nothing comes.
    fn go_round<R: Wait, S: Stable<M::Command>, U: Upstream>(
        &mut self,
        rt: &R,
        cell: &mut NodeCell<M, S, U>,
    ) -> bool
        ensures gone { HasGoneRound (⟦<M as Described>⟧.machine cell.old.parts.ether.setup) U.tally
            self.old.forwarded (account_of self.old) cell.old.parts result
            (account_of self.new) cell.new.parts }
        ensures reported { result ≡ true
            → HasReportedAll M.next_claim cell.new.parts self.new }
    {
        self.ask_before(rt, cell);
        let left = self.leader_left(cell);
        self.take_all(rt, cell, left);
        let all_asked = self.ask_all(rt, cell);
        let all_applied = self.apply_all(rt, cell);
        self.beat_on_news(rt, cell);
        // the report comes before the others are woken: clients wait for it
        let all_told = self.tell(rt, cell);
        self.wake_all(rt);
        all_of(all_asked, all_applied, all_told)
    }

    /// A leader that sends by itself sends, if there is news.
    fn beat_on_news<R: Wait, S: Stable<M::Command>, U: Upstream>(
        &mut self,
        rt: &R,
        cell: &mut NodeCell<M, S, U>,
    )
        ensures beaten { HasBeaten (⟦<M as Described>⟧.machine cell.old.parts.ether.setup) U.tally
            (is_news self.old.beats self.old.beaten self.old.round.is_behind cell.old.parts)
            cell.old.parts cell.new.parts }
        ensures kept { IsTrue (is_news self.old.beats self.old.beaten self.old.round.is_behind
            cell.old.parts)
            → HasFailed (⟦<M as Described>⟧.machine cell.old.parts.ether.setup) U.tally
            cell.old.parts Beat cell.new.parts
            ⊎ HasKept cell.old.parts self.new.beaten self.new.round.is_behind }
        ensures requests { HaveComeBack (account_of self.old) (account_of self.new) }
    {
        if !self.has_news(cell) {
            return;
        }
        let state = cell.state();
        let beaten = Beaten {
            term: state.standing.term,
            last: state.log.len(),
            commit: state.standing.commit,
        };
        if self.turn(rt, cell, NodeInput::Beat) {
            self.beaten = Some(beaten);
            self.round.is_behind = false;
        }
    }

    /// Whether the worker sends by itself, and its node leads and has news: its log or the agreed part of it grew since
    /// it last sent in its term, or a lagging node answered.
    fn has_news<S: Stable<M::Command>, U: Upstream>(&self, cell: &NodeCell<M, S, U>) -> bool
        ensures { result ≡ is_news self.now.beats self.now.beaten self.now.round.is_behind
            cell.now.parts }
    {
        let is_on_news = match self.beats {
            Beats::OnNews => true,
            Beats::WhenTold => false,
        };
        let standing = cell.state().standing;
        let now = Beaten {
            term: standing.term,
            last: cell.state().log.len(),
            commit: standing.commit,
        };
        is_on_news && leads(cell) && has_grown(self.beaten, self.round.is_behind, now)
    }

    /// Wakes the workers of the nodes that were posted to, or whose answer was taken.
    fn wake_all<R: Wait>(&mut self, rt: &R)
        ensures requests { account_of self.new ≡ account_of self.old }
        ensures only { self.new ≡ record self.old {
          round = record self.old.round { woken = none_woken };
        } }
    {
        for place in 0..MOST_NODES {
            if self.round.woken[place as usize] {
                wake(rt, self.others.as_slice(), place + 1);
            }
        }
        self.round.woken = [false; 7];
    }
}

/// Whether all three are true.
fn all_of(one: bool, two: bool, three: bool) -> bool
    ensures { result ≡ (one && (two && three)) }
{
    one && two && three
}

/// Whether a leader's log or the agreed part of it grew since it last sent in its term, or a lagging node answered.
fn has_grown(beaten: Option<Beaten>, is_behind: bool, now: Beaten) -> bool
    ensures { result ≡ has_grown beaten is_behind now.term now.last now.commit }
{
    match beaten {
        Some(beaten) => {
            beaten.term != now.term
                || beaten.last < now.last
                || beaten.commit < now.commit
                || is_behind
        }
        None => true,
    }
}
