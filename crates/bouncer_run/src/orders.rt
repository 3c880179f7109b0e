//! What the driver orders at the sockets.
ghost use Rattle.std.specs.Prelude.{◌≡◌, [], false, None, Some, OnOk};
ghost use Rattle.driver.specs.Calls.{Does};
ghost use Rattle.driver.specs.Calls.Call.{Lose};
ghost use Rattle.bouncer_run.specs.Deliveries.{AreOthersSame, HasWritten, guest_at};
ghost use Rattle.bouncer_run.specs.Responses.{HearsEnd, HearsIfGone, HearsIfNone};
ghost use Rattle.bouncer_run.specs.Sendings.{Awaits, HasSent};

use crate::connection::ending_of;
use crate::event_loop::LoopFault;
use crate::sockets::Sockets;
use driver::{Driver, Ending, Now};
use std::net::Net;

/// What the server is sent at the end.
const QUIT: &[u8] = b"QUIT\r\n";

impl Sockets {
    /// Bytes go to a client. It is gone if too much would wait for it.
    pub fn write(
        &mut self,
        now: &Now,
        driver: &mut Driver,
        number: u64,
        bytes: &[u8],
    ) -> Result<(), LoopFault>
        ensures client { OnOk result (HasWritten bytes.now false
            (guest_at self.old number) (guest_at self.new number)) }
        ensures others { AreOthersSame number self.old self.new }
        ensures server { self.new.server ≡ self.old.server }
        ensures heard { OnOk result (HearsIfGone (Does (Lose now.now.ms now.now.at number))
            (guest_at self.old number) (guest_at self.new number) driver.old driver.new) }
    {
        let Some(guest) = self.clients.get_mut(&number) else {
            return Ok(());
        };
        if guest.write(bytes)? {
            return Ok(());
        }
        self.drop_client(now, driver, number)
    }

    /// The server is connected, or its connection is gone.
    pub fn reach(&mut self, net: &impl Net, now: &Now, driver: &mut Driver) -> Result<(), LoopFault>
        ensures clients { self.new.clients ≡ self.old.clients }
        ensures server { OnOk result (Awaits (Some []) self.new.server) }
        ensures heard { OnOk result
            (HearsIfNone (HearsEnd now.now) self.new.server driver.old driver.new) }
    {
        match self.connect(net) {
            Ok(()) => Ok(()),
            Err(error) => self.drop_server(now, driver, ending_of(error.kind())),
        }
    }

    /// Bytes go to the server.
    pub fn send(&mut self, now: &Now, driver: &mut Driver, bytes: &[u8]) -> Result<(), LoopFault>
        ensures clients { self.new.clients ≡ self.old.clients }
        ensures sent { OnOk result (HasSent bytes.now self.old.server self.new.server) }
        ensures heard { OnOk result (HearsIfGone (HearsEnd now.now)
            self.old.server self.new.server driver.old driver.new) }
    {
        let Some(connection) = &mut self.server else {
            return Ok(());
        };
        if connection.write(bytes)? {
            return Ok(());
        }
        self.drop_server(now, driver, Ending::Lost)
    }

    /// The connection to the server is closed after what was sent, as far as it takes that at once.
    pub fn disconnect(&mut self, now: &Now)
        ensures clients { self.new.clients ≡ self.old.clients }
        ensures gone { self.new.server ≡ None }
    {
        if let Some(connection) = &mut self.server {
            connection.flush(now.ms);
        }
        self.server = None;
    }

    /// The bouncer ends: the server is sent QUIT, as far as it takes that at once.
    pub fn finish(&mut self, now: &Now) {
        if let Some(connection) = &mut self.server {
            let _ = connection.write(QUIT);
        }
        self.disconnect(now);
        for guest in self.clients.values_mut() {
            guest.connection.flush(now.ms);
        }
        self.clients.clear();
    }
}
