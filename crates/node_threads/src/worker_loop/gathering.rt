//! The inputs that a worker gathers, for its node to process together.
ghost use Rattle.std.specs.Prelude.{◌≡◌, ◌≤◌, [], None, false, length, true};
ghost use Rattle.world_views.specs.Views.{carries};
ghost use Rattle.node_threads.specs.Reports.{is_told, leads_in};
ghost use Rattle.node_threads.specs.Taking.{HasAdded, HasDoneBehind, HasTakenUp};
ghost use Rattle.node_threads.specs.Together.{AreReady, HasGatheredAll, HasTurnedAll, is_idle};
ghost use Rattle.node_threads.specs.Waiting.{HaveComeBack, HeedsJob, account_of, counted};

use crate::gate::{Gate, pass_gates};
use crate::job::Job;
use crate::outlet::Outlet;
use crate::worker_loop::WorkerLoop;
use crate::worker_loop::telling::leads;
use machine_laws::{Hosted, Machine, Marking};
use node_cells::{NodeCell, Upstream};
use raft_node::Described;
use stable_store::Stable;
use std::mem::replace;
use std::sync::Wait;
use world_views::NodeInput;

impl<M: Marking, G: Gate + Drop, O: Outlet<M::Effect>> WorkerLoop<M, G, O> {
    /// Takes up a job. An input by which a leader only appends is gathered; any other job is done after all that was
    /// gathered. Returns whether the job was done by itself.
    pub fn take_up<R: Wait, S: Stable<M::Command>, U: Upstream>(
        &mut self,
        rt: &R,
        cell: &mut NodeCell<M, S, U>,
        job: Job<M>,
        gathered: &mut Vec<NodeInput<M::Command, M::Line>>,
    ) -> bool
        requires { AreReady gathered.old.items cell.old.parts }
        ensures taken { HasTakenUp (⟦<M as Described>⟧.machine cell.old.parts.ether.setup) U.tally
            M.marked M.mark job gathered.old.items cell.old.parts gathered.new.items
            cell.new.parts }
        ensures requests { HeedsJob job (counted (is_told job) (account_of self.old))
            (account_of self.new) }
    {
        self.count(job.is_told());
        if !leads(cell) {
            self.do_job(rt, cell, job);
            return true;
        }
        match job.into_append() {
            Ok(input) => self.add(rt, cell, input, gathered),
            Err(job) => self.do_behind(rt, cell, job, gathered),
        }
    }

    /// Adds an input to those that were gathered. If memory runs out, it is done by itself after them, and this returns
    /// true.
    fn add<R: Wait, S: Stable<M::Command>, U: Upstream>(
        &mut self,
        rt: &R,
        cell: &mut NodeCell<M, S, U>,
        input: NodeInput<M::Command, M::Line>,
        gathered: &mut Vec<NodeInput<M::Command, M::Line>>,
    ) -> bool
        requires ready { AreReady gathered.old.items cell.old.parts }
        requires no_message { carries input ≡ None }
        ensures added { HasAdded (⟦<M as Described>⟧.machine cell.old.parts.ether.setup) U.tally
            input gathered.old.items cell.old.parts gathered.new.items cell.new.parts }
        ensures requests { HaveComeBack (account_of self.old) (account_of self.new) }
    {
        match gathered.push(input) {
            Ok(()) => false,
            Err(failed) => {
                self.turn_gathered(rt, cell, gathered);
                self.turn(rt, cell, failed.value);
                true
            }
        }
    }

    /// Does a job after all that was gathered, unless it does nothing with the node. Returns whether it does something
    /// with it.
    fn do_behind<R: Wait, S: Stable<M::Command>, U: Upstream>(
        &mut self,
        rt: &R,
        cell: &mut NodeCell<M, S, U>,
        job: Job<M>,
        gathered: &mut Vec<NodeInput<M::Command, M::Line>>,
    ) -> bool
        requires { AreReady gathered.old.items cell.old.parts }
        ensures done { HasDoneBehind (⟦<M as Described>⟧.machine cell.old.parts.ether.setup)
            U.tally M.marked M.mark (is_idle job) job gathered.old.items cell.old.parts
            gathered.new.items cell.new.parts }
        ensures requests { HeedsJob job (account_of self.old) (account_of self.new) }
    {
        if job.is_idle() {
            self.do_job(rt, cell, job);
            return false;
        }
        self.turn_gathered(rt, cell, gathered);
        self.do_job(rt, cell, job);
        true
    }

    /// Processes all that was gathered together, which leaves nothing gathered.
    pub fn turn_gathered<R: Wait, S: Stable<M::Command>, U: Upstream>(
        &mut self,
        rt: &R,
        cell: &mut NodeCell<M, S, U>,
        gathered: &mut Vec<NodeInput<M::Command, M::Line>>,
    )
        requires { AreReady gathered.old.items cell.old.parts }
        ensures turned { HasTurnedAll (⟦<M as Described>⟧.machine cell.old.parts.ether.setup)
            gathered.old.items cell.old.parts cell.new.parts }
        ensures none { gathered.new.items ≡ [] }
        ensures requests { account_of self.new ≡ account_of self.old }
    {
        let inputs = replace(gathered, Vec::new(self.alloc));
        self.turn_all(rt, cell, inputs);
    }

    /// Processes inputs by which a leader only appends together, if there are any: one save covers them, and nothing is
    /// sent by them. A refusal is a turn that did nothing.
    pub fn turn_all<R: Wait, S: Stable<M::Command>, U: Upstream>(
        &mut self,
        rt: &R,
        cell: &mut NodeCell<M, S, U>,
        inputs: Vec<NodeInput<M::Command, M::Line>>,
    )
        requires { AreReady inputs.items cell.old.parts }
        ensures turned { HasTurnedAll (⟦<M as Described>⟧.machine cell.old.parts.ether.setup)
            inputs.items cell.old.parts cell.new.parts }
        ensures gathered { HasGatheredAll (⟦<M as Described>⟧.machine cell.old.parts.ether.setup)
            inputs.items cell.old.parts self.old.round cell.new.parts self.new.round }
        ensures forwarded { self.new.forwarded ≡ self.old.forwarded }
        ensures requests { account_of self.new ≡ account_of self.old }
    {
        if !has_some(&inputs) {
            return;
        }
        pass_gates(rt, &*self.gate, self.id, &mut self.turns, inputs.len());
        match cell.turn_all(inputs) {
            Ok(answers) => self.round.fail_each(answers.as_slice()),
            Err(fault) => self.round.fail(fault),
        }
    }
}

/// Whether a list has items.
pub fn has_some<T>(items: &Vec<T>) -> bool
    ensures some { result ≡ true → 1 ≤ length items.now.items }
    ensures none { result ≡ false → items.now.items ≡ [] }
{
    !items.is_empty()
}
