//! What happens at the sockets goes to the driver.
ghost use Rattle.std.specs.Prelude.{◌≡◌, None, OnOk};
ghost use Rattle.driver.specs.Calls.{Does};
ghost use Rattle.driver.specs.Calls.Call.{End};
ghost use Rattle.bouncer_run.specs.Hearing.{IsServerServed};

use crate::connection::Reading;
use crate::event_loop::LoopFault;
use crate::hearing::hear_server;
use crate::sockets::{CLIENTS, SERVER, Sockets};
use driver::{Driver, Ending, Now};
use mio::{Events, Interest, Token};
use raft_log::NodeId;

impl Sockets {
    /// Whoever is ready is queued, and clients that come are taken.
    pub fn serve_all(
        &mut self,
        now: &Now,
        driver: &mut Driver,
        events: &Events,
    ) -> Result<(), LoopFault> {
        for event in events {
            let token = event.token().0;
            if token == SERVER || token >= CLIENTS {
                self.line_up(now, token)?;
            } else if 1 <= token && token <= 7 {
                self.accept(now, driver, NodeId::new(token as u8))?;
            }
        }
        Ok(())
    }

    /// The server's connection may be read from or written to.
    pub fn serve_server(&mut self, now: &Now, driver: &mut Driver) -> Result<(), LoopFault>
        ensures { OnOk result (IsServerServed now.now driver.old driver.new) }
    {
        let Some(connection) = &mut self.server else {
            return Ok(());
        };
        if connection.stream.peer_addr().is_ok() {
            driver.connected(now)?;
        }
        let takes = connection.flush(now.ms);
        let reading = hear_server(now, driver, connection, &mut self.reasons, &mut self.news)?;
        let stays = match reading {
            Reading::Done => takes,
            Reading::More => takes && self.watch_server(),
            Reading::Ended(why) => {
                // its last line may have no end
                self.reasons.end(&mut self.news)?;
                return self.drop_server(now, driver, why);
            }
            Reading::Later => {
                self.queue.join(SERVER)?;
                true
            }
        };
        if stays {
            return Ok(());
        }
        self.drop_server(now, driver, Ending::Lost)
    }

    /// More may wait at the server's connection than was read, so it is queued again. Returns
    /// whether it is.
    fn watch_server(&mut self) -> bool {
        let Some(connection) = &mut self.server else {
            return false;
        };
        let interest = Interest::READABLE | Interest::WRITABLE;
        let registry = self.poll.registry();
        registry
            .reregister(&mut connection.stream, Token(SERVER), interest)
            .is_ok()
    }

    /// The server's connection is gone.
    pub fn drop_server(
        &mut self,
        now: &Now,
        driver: &mut Driver,
        why: Ending,
    ) -> Result<(), LoopFault>
        ensures clients { self.new.clients ≡ self.old.clients }
        ensures gone { self.new.server ≡ None }
        ensures told { OnOk result (Does (End now.now.ms why) driver.old driver.new) }
    {
        self.server = None;
        driver.close(now, why)?;
        Ok(())
    }
}
