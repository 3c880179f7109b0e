//! All sockets.
ghost use Rattle.std.specs.Prelude.{◌≡◌, [], Some, OnOk, IsTrue, is_some};
ghost use Rattle.bouncer_run.specs.Sendings.{Awaits};

use crate::connection::Connection;
use crate::edge_news::EdgeNews;
use crate::guest::Guest;
use crate::leaving::Leaving;
use crate::queue::Queue;
use crate::ration::Ration;
use crate::reasons::Reasons;
use mio::net::{TcpListener, TcpStream};
use mio::{Interest, Poll, Token, Waker};
use raft_log::NodeId;
use std::alloc::{AllocError, Global};
use std::collections::BTreeMap;
use std::io;
use std::net::{Net, SocketAddr};

/// The token of what wakes the loop.
pub const WAKER: usize = 0;

/// The token of the server.
pub const SERVER: usize = 100;

/// The token of the client of number 0; each further client has the next token.
pub const CLIENTS: usize = 1000;

/// How many clients may be connected at once: far more than one person has, and far fewer than the
/// files that a program may have open.
pub const MOST_CLIENTS: usize = 256;

/// Where the clients of a node arrive.
#[derive(Drop)]
pub struct Listening {
    pub address: SocketAddr,
    /// None while the node is down or hangs: its address refuses connections, so that a client goes
    /// to the next one.
    pub listener: Option<TcpListener>,
    /// The last try to take a client, or to listen again, failed, so the next one is due at the
    /// next tick.
    pub is_deaf: bool,
    /// The node took clients before: until then its address is kept.
    pub was_open: bool,
}

/// All sockets: the nodes' listeners, their clients, and the server.
#[derive(Drop)]
pub struct Sockets {
    pub alloc: Global,
    pub poll: Poll,
    /// Node 1's first; the token of each is the number of its node.
    pub listeners: Vec<Listening>,
    pub clients: BTreeMap<u64, Guest>,
    pub server_address: SocketAddr,
    pub server: Option<Connection<TcpStream>>,
    pub reasons: Reasons,
    /// The connections that are ready to be read.
    pub queue: Queue,
    /// Connections that are closed, as far as the bouncer is concerned.
    pub leaving: Leaving,
    /// How often it was logged that a client was not taken, or gave way.
    pub crowding: Ration,
    /// What is still to be logged.
    pub news: Vec<EdgeNews>,
}

impl Sockets {
    /// No client is connected yet, and no node listens.
    pub fn new(alloc: Global, net: &impl Net, server_address: SocketAddr) -> io::Result<Sockets> {
        Ok(Sockets {
            alloc,
            poll: Poll::new(net)?,
            listeners: Vec::new(alloc),
            clients: BTreeMap::new(alloc),
            server_address,
            server: None,
            reasons: Reasons::new(alloc),
            queue: Queue::new(alloc),
            leaving: Leaving::new(alloc),
            crowding: Ration::new(),
            news: Vec::new(alloc),
        })
    }

    /// What ends the loop's wait.
    pub fn waker(&self) -> io::Result<Waker> {
        Waker::new(self.poll.registry(), Token(WAKER))
    }

    /// The next node listens at this address.
    pub fn listen(&mut self, net: &impl Net, address: SocketAddr) -> io::Result<()> {
        let place = self.listeners.len();
        let listener = Some(self.listener_at(net, place, address)?);
        self.listeners.push(Listening {
            address,
            listener,
            is_deaf: false,
            was_open: false,
        })?;
        Ok(())
    }

    /// The listener at this address for the node at this place, from 0 on.
    pub fn listener_at(
        &self,
        net: &impl Net,
        place: usize,
        address: SocketAddr,
    ) -> io::Result<TcpListener> {
        let mut listener = TcpListener::bind(net, address)?;
        let token = Token(place.saturating_add(1));
        self.poll
            .registry()
            .register(&mut listener, token, Interest::READABLE)?;
        Ok(listener)
    }

    /// No node listens any more.
    pub fn stop_listening(&mut self) {
        self.listeners.clear();
    }

    /// The connection of a client of a node, which has this number.
    pub fn admit(
        &mut self,
        number: u64,
        node: NodeId,
        stream: TcpStream,
        address: SocketAddr,
    ) -> io::Result<()> {
        let mut stream = stream;
        let _ = stream.set_nodelay(true);
        let token = Token(CLIENTS.saturating_add(number as usize));
        self.poll.registry().register(&mut stream, token, Interest::READABLE | Interest::WRITABLE)?;
        let guest = Guest::new(self.alloc, node, stream, address);
        match self.clients.insert(number, guest) {
            Ok(_) => Ok(()),
            Err(_) => Err(io::Error::from(io::ErrorKind::OutOfMemory)),
        }
    }

    /// The server is connected.
    pub fn connect(&mut self, net: &impl Net) -> io::Result<()>
        ensures clients { self.new.clients ≡ self.old.clients }
        ensures server { OnOk result (Awaits (Some []) self.new.server) }
        ensures made { OnOk result (IsTrue (is_some self.new.server)) }
    {
        let mut stream = TcpStream::connect(net, self.server_address)?;
        let _ = stream.set_nodelay(true);
        self.poll.registry().register(
            &mut stream,
            Token(SERVER),
            Interest::READABLE | Interest::WRITABLE,
        )?;
        self.server = Some(Connection::new(self.alloc, stream));
        self.reasons = Reasons::new(self.alloc);
        Ok(())
    }

    /// This is to be logged.
    pub fn tell(&mut self, news: EdgeNews) -> Result<(), AllocError>
        ensures { self.new ≡ record self.old { news = self.new.news } }
    {
        self.news.push(news)?;
        Ok(())
    }

    /// What is to be logged. None of it is returned again.
    pub fn news(&mut self) -> Vec<EdgeNews> {
        std::mem::replace(&mut self.news, Vec::new(self.alloc))
    }
}
