//! What clients send, including wrong passwords.
ghost use Rattle.std.specs.Prelude.{◌≡◌, None, OnOk, is_some};
ghost use Rattle.driver.specs.Coming.{Comes};
ghost use Rattle.driver.specs.Guarding.{NotesIf, WatchesPasswords, first_news, more_news, noted};
ghost use Rattle.driver.specs.Rosters.{AreOthersSame, client_at, refused_in};
ghost use Rattle.driver.specs.Telling.{ordered};

use crate::driver::Driver;
use crate::news::News;
use crate::order::Now;
use std::alloc::AllocError;
use wire_bytes::Origin;

impl Driver {
    /// Bytes came from a client, in pieces of any size. If it registered by them, its welcome goes on: the nick in
    /// force if it was greeted by another, that there is no message of the day, and, without a server, why and when the
    /// next try is. What it asks of the bouncer itself is answered; DROP WAITING drops what waits to go to the server.
    /// A wrong password is answered two seconds later, or in its turn, by `tick`, and the client is then closed.
    pub fn receive(&mut self, now: &Now, number: u64, bytes: &[u8]) -> Result<(), AllocError>
        ensures others { AreOthersSame number self.old.clients self.new.clients }
        ensures nobody { client_at self.old.clients number ≡ None →
            (self.new.clients ≡ self.old.clients)
            × (self.new.orders ≡ self.old.orders) }
        ensures served { OnOk result
            (Comes bytes.now now.now.ms now.now.at number self.old self.new) }
        ensures rest { self.new ≡ record self.old {
          clients = self.new.clients;
          orders = self.new.orders;
          guard = self.new.guard;
          dropping = self.new.dropping;
          link = record self.old.link { waiting = self.new.link.waiting };
        } }
    {
        let was_attached = self.clients.is_attached(number);
        let was_refused = self.clients.refused(number).is_some();
        let due = self.guard.due(now);
        let words = self
            .clients
            .receive(now, number, bytes, due, &mut self.orders)?;
        self.greet(now, was_attached, number)?;
        self.answer_all(now, number, words)?;
        self.note_refusal(now, was_refused, number)
    }

    /// Counts a refusal if a client's password has just been found wrong.
    fn note_refusal(&mut self, now: &Now, was_refused: bool, number: u64) -> Result<(), AllocError>
        ensures noted { OnOk result (NotesIf was_refused
            (refused_in (client_at self.old.clients number)) now.now.ms
            self.old.guard self.old.orders self.new.guard self.new.orders) }
        ensures nobody { client_at self.old.clients number ≡ None → self.new ≡ self.old }
        ensures rest { self.new ≡ record self.old
            { orders = self.new.orders; guard = self.new.guard } }
    {
        if was_refused {
            return Ok(());
        }
        match self.clients.refused(number) {
            Some(origin) => self.note_wrong(now, origin),
            None => Ok(()),
        }
    }

    /// The client of this origin sent a wrong password; it is logged if it is one of the first.
    fn note_wrong(&mut self, now: &Now, origin: Origin) -> Result<(), AllocError>
        ensures guard { OnOk result (self.new.guard ≡ noted now.now.ms self.old.guard) }
        ensures told { OnOk result (self.new.orders
            ≡ ordered self.old.orders (first_news self.old.guard origin)) }
        ensures rest { self.new ≡ record self.old
            { orders = self.new.orders; guard = self.new.guard } }
    {
        let is_first = self.guard.is_first();
        self.guard.note(now);
        if !is_first {
            return Ok(());
        }
        self.orders.log(News::WrongPassword(origin))
    }

    /// Once wrong passwords were counted for a minute, logs how many came beyond the first ones.
    pub fn watch_passwords(&mut self, now: &Now) -> Result<(), AllocError>
        ensures { OnOk result (WatchesPasswords now.now.ms self.old self.new) }
    {
        let more = self.guard.watch(now);
        self.tell_wrong(more)
    }

    /// Logs how many more came, if any did.
    fn tell_wrong(&mut self, more: u64) -> Result<(), AllocError>
        ensures told { OnOk result (self.new.orders
            ≡ ordered self.old.orders (more_news more)) }
        ensures rest { self.new ≡ record self.old { orders = self.new.orders } }
    {
        if more == 0 {
            return Ok(());
        }
        self.orders.log(News::WrongPasswords(more))
    }

    /// Whether the password of the client of this number was wrong, and it has not been answered yet.
    pub fn is_refused(&self, number: u64) -> bool
        ensures { result ≡ is_some (refused_in (client_at self.now.clients number)) }
    {
        self.clients.refused(number).is_some()
    }
}
