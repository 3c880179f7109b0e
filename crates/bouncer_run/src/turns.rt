//! Whose turn it is to be read.
use crate::event_loop::LoopFault;
use crate::sockets::{CLIENTS, Sockets};
use driver::{Driver, Now};

impl Sockets {
    /// A connection may be read from or written to: what waits for it is written, and it waits for
    /// its turn to be read.
    pub fn line_up(&mut self, now: &Now, token: usize) -> Result<(), LoopFault> {
        if token >= CLIENTS {
            if let Some(guest) = self.clients.get_mut(&((token - CLIENTS) as u64)) {
                guest.connection.flush(now.ms);
            }
        } else if let Some(connection) = &mut self.server {
            connection.flush(now.ms);
        }
        // a broken one is found at its turn
        self.queue.join(token)?;
        Ok(())
    }

    /// Each that waits for a turn has one, the first that may be read first; the others keep their
    /// places. So a server that sends without end leaves room for clients, and a client for the
    /// others.
    pub fn take_turns(&mut self, now: &Now, driver: &mut Driver) -> Result<(), LoopFault> {
        for _ in 0..self.queue.len() {
            let Some(token) = self.queue.next(driver) else {
                break;
            };
            if token < CLIENTS {
                self.serve_server(now, driver)?;
            } else {
                self.serve(now, driver, (token - CLIENTS) as u64)?;
            }
        }
        Ok(())
    }
}
