//! What happens at the clients' connections goes to the driver.
ghost use Rattle.std.specs.Prelude.{◌≡◌, [], false, None, OnOk};
ghost use Rattle.driver.specs.Calls.{Does};
ghost use Rattle.driver.specs.Calls.Call.{Lose};
ghost use Rattle.bouncer_run.specs.Deliveries.{AreOthersSame, HasWritten, guest_at};
ghost use Rattle.bouncer_run.specs.Hearing.{IsServed};

use crate::connection::Reading;
use crate::edge_news::EdgeNews;
use crate::event_loop::LoopFault;
use crate::guest::Stage;
use crate::hearing::hear_client;
use crate::sockets::{CLIENTS, Sockets};
use driver::{Driver, Now};
use mio::{Interest, Token};

impl Sockets {
    /// A client's connection may be read from or written to.
    pub fn serve(&mut self, now: &Now, driver: &mut Driver, number: u64) -> Result<(), LoopFault>
        ensures { OnOk result (IsServed now.now number driver.old driver.new) }
    {
        let Some(guest) = self.clients.get_mut(&number) else {
            return Ok(());
        };
        let takes = guest.connection.flush(now.ms);
        let reading = hear_client(now, driver, number, &mut guest.connection)?;
        self.note_refusal(driver, number);
        let stays = match reading {
            Reading::Done => takes,
            Reading::More => takes && self.watch_client(number),
            Reading::Ended(_) => false,
            Reading::Later => {
                self.queue.join(CLIENTS.saturating_add(number as usize))?;
                true
            }
        };
        if stays {
            return Ok(());
        }
        self.drop_client(now, driver, number)
    }

    /// More may wait at a client's connection than was read, so it is queued again. Returns whether
    /// it is.
    fn watch_client(&mut self, number: u64) -> bool {
        let Some(guest) = self.clients.get_mut(&number) else {
            return false;
        };
        let token = Token(CLIENTS.saturating_add(number as usize));
        let interest = Interest::READABLE | Interest::WRITABLE;
        let registry = self.poll.registry();
        registry
            .reregister(&mut guest.connection.stream, token, interest)
            .is_ok()
    }

    /// A client registered at its node.
    pub fn register(&mut self, number: u64)
        ensures client { HasWritten [] false (guest_at self.old number) (guest_at self.new number) }
        ensures others { AreOthersSame number self.old self.new }
        ensures server { self.new.server ≡ self.old.server }
    {
        if let Some(guest) = self.clients.get_mut(&number) {
            guest.stage = Stage::Registered;
        }
    }

    /// The password of a client may have been wrong.
    fn note_refusal(&mut self, driver: &Driver, number: u64) {
        if !driver.is_refused(number) {
            return;
        }
        if let Some(guest) = self.clients.get_mut(&number) {
            guest.stage = Stage::Refused;
        }
    }

    /// What is logged about a client whose password was wrong.
    pub fn wrong_password(&self, number: u64) -> Option<EdgeNews> {
        let guest = self.clients.get(&number)?;
        Some(EdgeNews::WrongPassword(guest.node, number, guest.address))
    }

    /// A client's connection is gone.
    pub fn drop_client(
        &mut self,
        now: &Now,
        driver: &mut Driver,
        number: u64,
    ) -> Result<(), LoopFault>
        ensures gone { guest_at self.new number ≡ None }
        ensures others { AreOthersSame number self.old self.new }
        ensures server { self.new.server ≡ self.old.server }
        ensures lost { OnOk result
            (Does (Lose now.now.ms now.now.at number) driver.old driver.new) }
    {
        if driver.is_attached(number) {
            self.register(number);
        }
        self.forget_client(now, number)?;
        driver.lose(now, number)?;
        Ok(())
    }

    /// A client's connection is closed.
    pub fn forget_client(&mut self, now: &Now, number: u64) -> Result<(), LoopFault>
        ensures gone { guest_at self.new number ≡ None }
        ensures others { AreOthersSame number self.old self.new }
        ensures server { self.new.server ≡ self.old.server }
    {
        let Some(guest) = self.clients.remove(&number) else {
            return Ok(());
        };
        if let Some(news) = guest.parting(number) {
            self.tell(news)?;
        }
        self.tell(EdgeNews::Closed(guest.node, number, guest.address))?;
        self.leaving.add(now.ms, guest.connection.stream);
        Ok(())
    }
}
