//! Clients that arrive.
use crate::edge_news::EdgeNews;
use crate::event_loop::LoopFault;
use crate::guest::Hold;
use crate::sockets::{MOST_CLIENTS, Sockets};
use driver::{Driver, Now};
use mio::net::TcpStream;
use mio::{Interest, Token};
use raft_log::NodeId;
use std::io::{self, ErrorKind, Write};
use std::net::SocketAddr;

/// How many clients are taken at once.
const TAKEN: usize = 64;

/// What a client is sent if there is no place.
const CROWDED: &[u8] = b"ERROR :too many clients\r\n";

/// What a try to take a client gave.
enum Arrival {
    Client(TcpStream, SocketAddr),
    /// One came, and left before it was taken.
    Gone,
    /// No other client waits.
    Nobody,
    /// None can be taken for now.
    Fault(io::Error),
}

impl Sockets {
    /// Clients are waiting at a node's listener, or it could take none before.
    pub fn accept(
        &mut self,
        now: &Now,
        driver: &mut Driver,
        node: NodeId,
    ) -> Result<(), LoopFault> {
        for _ in 0..TAKEN {
            match self.arrival(node) {
                Arrival::Client(stream, from) => {
                    self.take_in(now, driver, node, stream, from)?;
                }
                Arrival::Gone => {}
                Arrival::Nobody => {
                    self.set_deaf(node, false);
                    return Ok(());
                }
                Arrival::Fault(error) => return self.tell_deaf(node, error),
            }
        }
        self.listen_again(node)
    }

    /// The next client that waits at a node's listener.
    fn arrival(&self, node: NodeId) -> Arrival {
        let Some(listening) = self.listeners.get(node.value() as usize - 1) else {
            return Arrival::Nobody;
        };
        let Some(listener) = &listening.listener else {
            return Arrival::Nobody;
        };
        match listener.accept() {
            Ok((stream, from)) => Arrival::Client(stream, from),
            Err(error) => match error.kind() {
                ErrorKind::WouldBlock => Arrival::Nobody,
                ErrorKind::Interrupted | ErrorKind::ConnectionAborted => Arrival::Gone,
                _ => Arrival::Fault(error),
            },
        }
    }

    /// A node's listener can take clients, or can't for now. Returns whether it could before.
    fn set_deaf(&mut self, node: NodeId, is_deaf: bool) -> bool {
        let Some(listening) = self.listeners.get_mut(node.value() as usize - 1) else {
            return false;
        };
        let could = !listening.is_deaf;
        listening.is_deaf = is_deaf;
        could
    }

    /// No client can be taken at a node's listener, which is logged once.
    fn tell_deaf(&mut self, node: NodeId, error: io::Error) -> Result<(), LoopFault> {
        if self.set_deaf(node, true) {
            self.tell(EdgeNews::Deaf(node, error))?;
        }
        Ok(())
    }

    /// The listeners that could take no client try again.
    pub fn accept_again(&mut self, now: &Now, driver: &mut Driver) -> Result<(), LoopFault> {
        for index in 0..7u8 {
            let is_deaf = match self.listeners.get(index as usize) {
                // one that does not listen is tried by `follow`
                Some(listening) => listening.is_deaf && listening.listener.is_some(),
                None => false,
            };
            if is_deaf {
                self.accept(now, driver, NodeId::new(index + 1))?;
            }
        }
        Ok(())
    }

    /// More clients may wait at this listener than were taken.
    fn listen_again(&mut self, node: NodeId) -> Result<(), LoopFault> {
        let Some(listening) = self.listeners.get_mut(node.value() as usize - 1) else {
            return Ok(());
        };
        let Some(listener) = &mut listening.listener else {
            return Ok(());
        };
        let token = Token(node.value() as usize);
        match self
            .poll
            .registry()
            .reregister(listener, token, Interest::READABLE)
        {
            Ok(()) => Ok(()),
            Err(_) => Err(LoopFault::Socket),
        }
    }

    /// A client came to a node. It is turned away if there is no place, or if its node is down: then
    /// no other client gives way.
    fn take_in(
        &mut self,
        now: &Now,
        driver: &mut Driver,
        node: NodeId,
        stream: TcpStream,
        from: SocketAddr,
    ) -> Result<(), LoopFault> {
        let needs_place = driver.takes_clients(node) && self.clients.len() >= MOST_CLIENTS;
        if needs_place && !self.make_place(now, driver)? {
            self.tell_crowded(now, EdgeNews::Crowded(node, from))?;
            self.turn_away(now, stream, CROWDED);
            return Ok(());
        }
        let Some(number) = driver.connect(now, node)? else {
            return self.refuse(now, driver, node, stream);
        };
        if let Err(error) = self.admit(number, node, stream, from) {
            self.tell_crowded(now, EdgeNews::Deaf(node, error))?;
            driver.lose(now, number)?;
            return Ok(());
        }
        self.tell(EdgeNews::Came(node, number, from))?;
        Ok(())
    }

    /// That a client was not taken, or gave way, is logged, a few times a minute.
    fn tell_crowded(&mut self, now: &Now, news: EdgeNews) -> Result<(), LoopFault> {
        if self.crowding.take(now.ms) {
            self.tell(news)?;
        }
        Ok(())
    }

    /// A connection just made to a node that takes no clients gets a line that says why, and is
    /// closed.
    fn refuse(
        &mut self,
        now: &Now,
        driver: &Driver,
        node: NodeId,
        stream: TcpStream,
    ) -> Result<(), LoopFault> {
        let why = if driver.is_hanging(node) {
            "does not answer"
        } else {
            "is down"
        };
        let line = format!(in self.alloc; "ERROR :node {} {why}\r\n", node.value())?;
        self.turn_away(now, stream, line.as_bytes());
        Ok(())
    }

    /// A connection that was just made gets a line, and is closed.
    fn turn_away(&mut self, now: &Now, stream: TcpStream, line: &[u8]) {
        let mut stream = stream;
        // nothing waits for it yet, so the system takes the whole line
        let _ = stream.write(line);
        self.leaving.add(now.ms, stream);
    }

    /// A client gives its place to a new one: the oldest that has not registered, or else one that
    /// is only to be closed. What waits for it is written first, as far as it takes that at once.
    /// Returns whether there is one.
    fn make_place(&mut self, now: &Now, driver: &mut Driver) -> Result<bool, LoopFault> {
        let Some(number) = self.who_gives_way(driver) else {
            return Ok(false);
        };
        let Some(guest) = self.clients.remove(&number) else {
            return Ok(false);
        };
        let mut guest = guest;
        let news = EdgeNews::GaveWay(guest.node, number, guest.address);
        self.tell_crowded(now, news)?;
        guest.connection.flush(now.ms);
        if guest.connection.is_idle() {
            self.turn_away(now, guest.connection.stream, CROWDED);
        } else {
            // it got the reason already, or a line would land in the middle of another
            self.leaving.add(now.ms, guest.connection.stream);
        }
        driver.lose(now, number)?;
        Ok(true)
    }

    /// The number of the client whose place is taken, if one is.
    fn who_gives_way(&self, driver: &Driver) -> Option<u64> {
        for hold in [Hold::Unregistered, Hold::Closing, Hold::Unsent] {
            let oldest = self.oldest(driver, hold);
            if oldest.is_some() {
                return oldest;
            }
        }
        None
    }

    /// The number of the oldest client with this hold on its place.
    fn oldest(&self, driver: &Driver, hold: Hold) -> Option<u64> {
        for (number, guest) in &self.clients {
            if guest.hold(driver.is_attached(*number)) == hold {
                return Some(*number);
            }
        }
        None
    }
}
