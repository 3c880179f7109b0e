//! What a worker reports to its outlet, once a round.
ghost use Rattle.std.specs.Prelude.{◌≡◌, ◌<◌, ◌↔◌, ◌⊎◌, [], IsTrue, None, Some, false, suc, true};
ghost use Rattle.node_threads.specs.Reports.{HasGrownAlone, IsReport, TellsFirst};
ghost use Rattle.node_threads.specs.Telling.{HasTold, IsKnown, IsUntold, StandsSo};
ghost use Rattle.node_threads.specs.Requests.{in_term, queue_of};
ghost use Rattle.node_threads.specs.Rounds.{leaving};
ghost use Rattle.node_threads.specs.Waiting.{HaveComeBack, account_of};

use crate::gate::Gate;
use crate::outlet::Outlet;
use crate::worker_loop::WorkerLoop;
use crate::worker_loop::telling::{Told, status};
use machine_laws::{Hosted, Machine, Marking};
use node_cells::{NodeCell, Upstream};
use node_notes::{Progress, Report};
use raft_log::NodeId;
use raft_node::Described;
use stable_store::Stable;
use std::mem::replace;
use std::sync::Wait;
use std::thread;

impl<M: Marking, G: Gate + Drop, O: Outlet<M::Effect>> WorkerLoop<M, G, O> {
    /// Reports what is new. That only the log grew is reported with what comes of it, with the next beat of the clock,
    /// or in the next round in which the log does not grow: else the loop would wake twice for each entry. False if the
    /// report was not taken, or there is more to report.
    pub fn tell<R: Wait, S: Stable<M::Command>, U: Upstream>(
        &mut self,
        rt: &R,
        cell: &NodeCell<M, S, U>,
    ) -> bool
        ensures order { TellsFirst (leaving self.old.round) (leaving self.new.round) }
        ensures all { result ≡ true → self.new.round.effects.items ≡ [] }
        ensures told { IsUntold self.old self.new
            ⊎ HasTold O.has_taken (StandsSo M.next_claim cell.now.parts self.old)
            (suc cell.now.parts.pass.node) self.old self.new }
        ensures known { result ≡ true
            → IsKnown (StandsSo M.next_claim cell.now.parts self.old) self.new }
        ensures requests { HaveComeBack (account_of self.old) (account_of self.new) }
    {
        let now = self.stand(cell);
        let has_grown = self.has_grown(&now);
        if !self.is_news(&now) || (has_grown && self.may_tell_later(&now)) {
            return true;
        }
        self.tell_now(rt, cell.id(), now)
    }

    /// Reports this state of the node, with its effects and the first fault. False if the report was not taken, or
    /// there is more to report.
    pub fn tell_now<R: Wait>(&mut self, rt: &R, node: NodeId, now: Told) -> bool
        ensures order { TellsFirst (leaving self.old.round) (leaving self.new.round) }
        ensures all { result ≡ true → self.new.round.effects.items ≡ [] }
        ensures told { IsUntold self.old self.new
            ⊎ HasTold O.has_taken (λ told. told ≡ now) node self.old self.new }
        ensures known { result ≡ true → self.new.told ≡ Some now }
        ensures requests { account_of self.new ≡ account_of self.old }
    {
        let report = self.report(node, &now);
        match self.outlet.report(rt, report) {
            Ok(()) => {
                self.told = Some(now);
                self.has_untold_beat = false;
                self.round.go_on(self.alloc);
                !self.round.has_news()
            }
            Err(back) => {
                self.round.effects = back.effects;
                thread::yield_now();
                false
            }
        }
    }

    /// The state of the node, and how far its worker is.
    fn stand<S: Stable<M::Command>, U: Upstream>(&mut self, cell: &NodeCell<M, S, U>) -> Told
        ensures stands { StandsSo M.next_claim cell.now.parts self.old result }
        ensures requests { queue_of self.new.requests
            ≡ in_term cell.now.parts.node.state.standing.term (queue_of self.old.requests) }
        ensures only { self.new ≡ record self.old { requests = self.new.requests } }
    {
        let status = status(cell);
        self.requests.see(status.term);
        let progress = Progress {
            done: self.done,
            waiting: self.requests.waiting.len() as u64,
            lost: self.requests.lost,
            contacts: self.contacts,
        };
        Told { status, progress }
    }

    /// A report, from the effects and the first fault.
    fn report(&mut self, node: NodeId, now: &Told) -> Report<M::Effect>
        ensures report { IsReport node now.now self.old.round.effects.items self.old.round.fault
            result }
        ensures effects { self.new.round.effects.items ≡ [] }
        ensures only { self.new ≡ record self.old {
          round = record self.old.round { effects = self.new.round.effects };
        } }
    {
        Report {
            node,
            status: now.status,
            effects: replace(&mut self.round.effects, Vec::new(self.alloc)),
            progress: now.progress,
            fault: self.round.fault,
        }
    }

    /// Whether the log is longer than when the last round ended.
    fn has_grown(&mut self, now: &Told) -> bool
        ensures grown { IsTrue result ↔ (self.old.seen < now.now.status.last) }
        ensures seen { self.new ≡ record self.old { seen = now.now.status.last } }
    {
        let has_grown = self.seen < now.status.last;
        self.seen = now.status.last;
        has_grown
    }

    /// Whether all there is to report is that the log grew by a few notes, none of which is a beat: the clock waits for
    /// that before it orders the next one.
    fn may_tell_later(&self, now: &Told) -> bool
        ensures none_leaves { result ≡ true → self.now.round.effects.items ≡ [] }
        ensures no_fault { result ≡ true → self.now.round.fault ≡ None }
        ensures no_beat { result ≡ true → self.now.has_untold_beat ≡ false }
        ensures grown { result ≡ true → HasGrownAlone self.now.told now.now }
    {
        if self.round.has_news() || self.has_untold_beat {
            return false;
        }
        match &self.told {
            Some(told) => told.has_grown_alone(now),
            None => false,
        }
    }

    /// Whether there is something to report: an effect, a turn that did nothing, or a state of the node or its worker
    /// that differs from the last report.
    pub fn is_news(&self, now: &Told) -> bool
        ensures effects { result ≡ false → self.now.round.effects.items ≡ [] }
        ensures fault { result ≡ false → self.now.round.fault ≡ None }
        ensures told { result ≡ false → self.now.told ≡ Some now.now }
    {
        if self.round.has_news() {
            return true;
        }
        match &self.told {
            Some(told) => !told.is_same(now),
            None => true,
        }
    }
}
