//! Connections that are closed, and held for a moment.
use mio::net::TcpStream;
use std::alloc::Global;
use std::net::Shutdown;

/// How long a closed connection is held, in milliseconds: otherwise what its other side still sends
/// would be answered by a reset, which can overtake the last line that it was sent.
const HELD: u64 = 1_000;

/// How many such connections are held: few, since each takes a file.
const MOST_HELD: usize = 64;

/// A connection that is held until this moment, in milliseconds.
#[derive(Drop)]
struct Leaver {
    /// It is held only for its drop, which closes it.
    #[allow(dead_code)]
    stream: TcpStream,
    until: u64,
}

/// Connections that are closed, the oldest first, and held for a moment.
#[derive(Drop)]
pub struct Leaving {
    leavers: Vec<Leaver>,
}

impl Leaving {
    pub fn new(alloc: Global) -> Leaving {
        Leaving {
            leavers: Vec::new(alloc),
        }
    }

    /// Nothing more is written to a connection. If it can't be held it is gone at once.
    pub fn add(&mut self, ms: u64, stream: TcpStream) {
        let _ = stream.shutdown(Shutdown::Write);
        if self.leavers.len() >= MOST_HELD {
            self.leavers.remove(0);
        }
        let until = ms.saturating_add(HELD);
        let _ = self.leavers.push(Leaver { stream, until });
    }

    /// Those whose time is over are gone.
    pub fn tick(&mut self, ms: u64) {
        self.leavers.retain(|leaver| ms < leaver.until);
    }
}
