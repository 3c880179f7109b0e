//! A client that leaves: what it is still shown is written, and then it is closed.
ghost use Rattle.std.specs.Prelude.{◌≡◌, ◌∷◌, List, OnOk};
ghost use Rattle.client_gate.specs.Calls.{Call, Stands, gate};
ghost use Rattle.client_gate.specs.declared.settings.Settings.{Settings};
ghost use Rattle.client_gate.specs.Calls.{End};
ghost use Rattle.client_gate.specs.Gates.{last_request};
ghost use Rattle.driver.specs.Clients.{is_leaving, last_asks};
ghost use Rattle.driver.specs.Leaving.{IsDismissed, is_overdue, leaving_from};
ghost use Rattle.driver.specs.Serving.{PartsIf, StandsSo, is_done};
ghost use Rattle.driver.specs.Telling.{ordered};

use crate::client::Client;
use crate::client::asking::asks;
use crate::order::Now;
use crate::orders::Orders;
use crate::timer::Timer;
use std::alloc::AllocError;

/// How long the connection of a leaving client stays open if its Leave is not done, in milliseconds.
// Working nodes take a fraction of a second. If too few are up nobody knows when it is done, and a person who quits
// waits for the connection to close.
const LEAVES_WITHIN: u64 = 5_000;

impl Client {
    /// Whether nothing more is read from it: it is leaving, or its connection is gone.
    pub fn is_leaving(&self) -> bool
        ensures { result ≡ is_leaving self.now }
    {
        self.is_gone || self.leaving.is_some()
    }

    /// Closes a leaving client once all its requests are done.
    pub(crate) fn part_if_done(&mut self, now: &Now, orders: &mut Orders) -> Result<(), AllocError>
        ensures { (s : Settings) (calls : List Call) → Stands s calls self.old.gate → OnOk result
            (PartsIf (is_done (gate s calls).waiting self.old) now.now.at s calls
            self.old orders.old self.new orders.new) }
    {
        if self.leaving.is_some() && self.gate.waiting() == 0 {
            return self.part(now, orders);
        }
        Ok(())
    }

    /// Whether it leaves, and its Leave was not done in time.
    pub(crate) fn is_overdue(&self, now: &Now) -> bool
        ensures { result ≡ is_overdue self.now now.now.ms }
    {
        match self.leaving {
            Some(since) => !self.is_gone && since.has_passed(LEAVES_WITHIN, now.ms),
            None => false,
        }
    }

    /// It is to leave, as if it had sent QUIT; one that asked for nothing is closed at once.
    pub fn dismiss(&mut self, now: &Now, orders: &mut Orders) -> Result<(), AllocError>
        ensures { (s : Settings) (calls : List Call) → Stands s calls self.old.gate → OnOk result
            (IsDismissed now.now.ms now.now.at s calls
            self.old orders.old self.new orders.new) }
    {
        if self.is_leaving() {
            return Ok(());
        }
        self.begin_asking(now, orders);
        self.leave(now, orders)?;
        self.part_if_done(now, orders)
    }

    /// It is leaving from now on: its last request goes to its node, if it registered.
    fn leave(&mut self, now: &Now, orders: &mut Orders) -> Result<(), AllocError>
        ensures told { (s : Settings) (calls : List Call) → Stands s calls self.old.gate →
            OnOk result (orders.new ≡ ordered orders.old
            (last_asks self.old.origin now.now.at (last_request (gate s calls)))) }
        ensures stands { (s : Settings) (calls : List Call) → Stands s calls self.old.gate →
            OnOk result (StandsSo s (End ∷ calls)
            (leaving_from now.now.ms self.old) self.new) }
    {
        self.leaving = Some(Timer::from(now.ms));
        if let Some(request) = self.gate.end() {
            orders.submit(self.node(), asks(self.origin, now, request))?;
        }
        Ok(())
    }
}
