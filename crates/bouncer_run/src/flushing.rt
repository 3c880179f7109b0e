//! What waits to be written, and connections that are to be closed.
ghost use Rattle.std.specs.Prelude.{◌≡◌, [], true};
ghost use Rattle.bouncer_run.specs.Deliveries.{AreOthersSame, HasWritten, guest_at};

use crate::event_loop::LoopFault;
use crate::sockets::Sockets;
use driver::{Driver, Now};
use std::alloc::AllocError;

impl Sockets {
    /// What waits is written, for each connection once. Returns whether this closed one.
    pub fn flush_all(&mut self, now: &Now, driver: &mut Driver) -> Result<bool, LoopFault> {
        let mut any = self.flush_server(now, driver)?;
        for number in self.flush_clients(now)? {
            any = true;
            if self.is_over(number) {
                self.forget_client(now, number)?;
            } else {
                // what it sent before it broke is read first
                self.serve(now, driver, number)?;
            }
        }
        Ok(any)
    }

    /// What waits is written to the server. Returns whether this closed its connection.
    fn flush_server(&mut self, now: &Now, driver: &mut Driver) -> Result<bool, LoopFault> {
        let Some(connection) = &mut self.server else {
            return Ok(false);
        };
        if !connection.is_waiting() || connection.flush(now.ms) {
            return Ok(false);
        }
        self.serve_server(now, driver)?;
        Ok(true)
    }

    /// What waits is written to each client. Returns the clients that are to be closed now, or
    /// whose connection broke.
    fn flush_clients(&mut self, now: &Now) -> Result<Vec<u64>, AllocError> {
        let mut closing = Vec::new(self.alloc);
        for (number, guest) in self.clients.iter_mut() {
            let connection = &mut guest.connection;
            let takes = !connection.is_waiting() || connection.flush(now.ms);
            if !takes || connection.is_over() {
                closing.push(*number)?;
            }
        }
        Ok(closing)
    }

    /// Whether a client's connection is to be closed now.
    fn is_over(&self, number: u64) -> bool {
        match self.clients.get(&number) {
            Some(guest) => guest.connection.is_over(),
            None => true,
        }
    }

    /// A client's connection is to be closed, after what is still to be written.
    pub fn close(&mut self, now: &Now, number: u64)
        ensures client { HasWritten [] true (guest_at self.old number) (guest_at self.new number) }
        ensures others { AreOthersSame number self.old self.new }
        ensures server { self.new.server ≡ self.old.server }
    {
        if let Some(guest) = self.clients.get_mut(&number) {
            guest.connection.end(now.ms);
        }
    }

    /// Time passed.
    pub fn tick(&mut self, now: &Now, driver: &mut Driver) -> Result<(), LoopFault> {
        for number in self.late(now)? {
            self.forget_client(now, number)?;
        }
        self.leaving.tick(now.ms);
        self.accept_again(now, driver)
    }

    /// The clients that are to be closed, and have taken nothing for too long.
    fn late(&self, now: &Now) -> Result<Vec<u64>, AllocError> {
        let mut numbers = Vec::new(self.alloc);
        for (number, guest) in &self.clients {
            if guest.connection.is_late(now.ms) {
                numbers.push(*number)?;
            }
        }
        Ok(numbers)
    }
}
