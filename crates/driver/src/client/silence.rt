//! What time does to a client: it may be too slow, too silent, or held up.
ghost use Rattle.std.specs.Prelude.{◌≡◌, ◌||◌, true, false, List, OnOk};
ghost use Rattle.client_gate.specs.Calls.{Call, Stands};
ghost use Rattle.client_gate.specs.declared.settings.Settings.{Settings};
ghost use Rattle.driver.specs.Leaving.{is_overdue};
ghost use Rattle.driver.specs.Serving.{IsLost};
ghost use Rattle.driver.specs.Silence.{IsAsked, IsKept, IsSentOff, held_back, is_to_go, is_too_slow, last_line, late_line, waited};

use crate::client::Client;
use crate::order::Now;
use crate::orders::Orders;
use crate::timer::Timer;
use std::alloc::AllocError;

/// How long a client may take to register, in milliseconds: programs send all of it at once, and one that does not
/// holds a connection that others may need.
const REGISTERS_WITHIN: u64 = 10_000;

/// How long a client may be silent before it is sent a PING, and how much longer before its connection is closed, in
/// milliseconds.
// A connection that broke without a word is noticed within some minutes, as servers notice it.
const SILENCE: u64 = 120_000;

/// What a client that was silent for long is sent.
const PING: &[u8] = b"PING bouncer.local\r\n";

/// What a client that did not register in time is sent.
const TOO_SLOW: &[u8] = b"ERROR :you did not register in time\r\n";

/// What a client that did not answer the PING is sent.
const TOO_SILENT: &[u8] = b"ERROR :no word from you for too long\r\n";

impl Client {
    /// Time passed, in which the client was read or was not. It may have been leaving for too long, be too slow to
    /// register, get the answer to a wrong password, or, if it was read, be too silent. If it is held up, what waits
    /// goes out again, once each timeout.
    pub fn tick(
        &mut self,
        now: &Now,
        timeout_ms: u16,
        is_read: bool,
        orders: &mut Orders,
    ) -> Result<(), AllocError>
        ensures overdue { (s : Settings) (calls : List Call) → Stands s calls self.old.gate →
            is_overdue self.old now.now.ms ≡ true → OnOk result
            (IsLost now.now.ms now.now.at s calls self.old orders.old self.new orders.new) }
        ensures slow { (s : Settings) (calls : List Call) → Stands s calls self.old.gate →
            is_overdue self.old now.now.ms ≡ false →
            is_to_go (waited is_read now.now.ms self.old) now.now.ms ≡ true → OnOk result
            (IsSentOff now.now.ms now.now.at s calls (waited is_read now.now.ms self.old)
            orders.old self.new orders.new) }
        ensures kept { (s : Settings) (calls : List Call) → Stands s calls self.old.gate →
            is_overdue self.old now.now.ms ≡ false →
            is_to_go (waited is_read now.now.ms self.old) now.now.ms ≡ false → OnOk result
            (IsKept timeout_ms now.now.ms now.now.at s calls (waited is_read now.now.ms self.old)
            orders.old self.new orders.new) }
    {
        if self.is_overdue(now) {
            return self.hang_up(now, orders);
        }
        if !is_read {
            self.hold_back(now);
        }
        self.tick_read(now, timeout_ms, orders)
    }

    /// It is not read, so what it says meanwhile is not heard. One that did not register is read in any case.
    fn hold_back(&mut self, now: &Now)
        ensures { self.new ≡ held_back now.now.ms self.old }
    {
        if self.is_attached {
            self.heard = Timer::from(now.ms);
        }
    }

    /// Time passed while it was read.
    fn tick_read(
        &mut self,
        now: &Now,
        timeout_ms: u16,
        orders: &mut Orders,
    ) -> Result<(), AllocError>
        ensures slow { (s : Settings) (calls : List Call) → Stands s calls self.old.gate →
            is_to_go self.old now.now.ms ≡ true → OnOk result
            (IsSentOff now.now.ms now.now.at s calls self.old orders.old self.new orders.new) }
        ensures kept { (s : Settings) (calls : List Call) → Stands s calls self.old.gate →
            is_to_go self.old now.now.ms ≡ false → OnOk result
            (IsKept timeout_ms now.now.ms now.now.at s calls self.old orders.old self.new orders.new) }
    {
        if self.is_to_go(now) {
            return self.send_off(now, orders);
        }
        self.ask_for_word(now, orders)?;
        if self.is_held_up && self.asked.at.has_passed(timeout_ms as u64, now.ms) {
            self.ask_again(now, orders)?;
        }
        Ok(())
    }

    /// Sends a PING to one that was silent for long, once.
    fn ask_for_word(&mut self, now: &Now, orders: &mut Orders) -> Result<(), AllocError>
        ensures { OnOk result (IsAsked self.old now.now.ms orders.old self.new orders.new) }
    {
        if self.is_pinged || self.is_leaving() || !self.heard.has_passed(SILENCE, now.ms) {
            return Ok(());
        }
        self.is_pinged = true;
        let ping = Vec::from_slice(self.alloc, PING)?;
        orders.write(self.origin.client(), ping)?;
        Ok(())
    }

    /// Sends it the reason, and closes its connection.
    fn send_off(&mut self, now: &Now, orders: &mut Orders) -> Result<(), AllocError>
        ensures { (s : Settings) (calls : List Call) → Stands s calls self.old.gate → OnOk result
            (IsSentOff now.now.ms now.now.at s calls self.old orders.old self.new orders.new) }
    {
        let error = Vec::from_slice(self.alloc, self.last_line(now))?;
        orders.write(self.origin.client(), error)?;
        self.hang_up(now, orders)
    }

    /// The last line it gets: the gate's answer to a wrong password, or else that it was too slow.
    fn last_line(&self, now: &Now) -> &[u8]
        ensures { result.now ≡ last_line self.now now.now.ms }
    {
        match self.due_answer(now) {
            Some(answer) => answer,
            None => late_line(self.is_attached),
        }
    }

    /// Whether its password was wrong and its moment has come, or it did not register in time, or did not answer. One
    /// that is leaving or gone is not sent off.
    fn is_to_go(&self, now: &Now) -> bool
        ensures { result ≡ is_to_go self.now now.now.ms }
    {
        // the last request of a lost client, its Leave, still has to be done
        if self.is_leaving() {
            return false;
        }
        self.due_answer(now).is_some() || self.is_too_slow(now)
    }

    /// Whether it did not register in time, or did not answer.
    fn is_too_slow(&self, now: &Now) -> bool
        ensures { result ≡ is_too_slow self.now now.now.ms }
    {
        if self.is_attached {
            self.is_pinged && self.heard.has_passed(2 * SILENCE, now.ms)
        } else {
            self.since.has_passed(REGISTERS_WITHIN, now.ms)
        }
    }
}

/// What a client that is too slow is sent, whether it registered or not.
fn late_line(is_attached: bool) -> &'static [u8]
    ensures { result.now ≡ late_line is_attached }
{
    if is_attached { TOO_SILENT } else { TOO_SLOW }
}
