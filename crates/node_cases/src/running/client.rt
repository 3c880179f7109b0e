//! Clients that ask over and over until they are answered.
ghost use Rattle.std.specs.Prelude.{◌<◌};

use crate::running::clusters::{Counter, Crew, MOST_POLLS, rest};
use crate::running::inputs::Inputs;
use crate::running::request::{Request, numbered};
use machine_laws::{Hosted, Machine, Marking};
use node_notes::Note;
use raft_log::NodeId;
use std::alloc::{AllocError, Global};
use std::rt::Clock;
use std::sync::atomic::Ordering;
use std::sync::{Arc, Wait};
use std::test::Fail;
use wire_bytes::Wire;

/// How often a request is polled for before it is asked again.
const POLLS_A_REQUEST: u64 = 100;

/// How many polls behind a request node 1 is told to beat.
const POLLS_BEHIND: u64 = 5;

/// The client 1 of the first run of a node.
#[derive(Drop)]
pub struct Client {
    node: NodeId,
    done: Counter,
    /// How often it submitted each of its requests.
    pub submitted: Inputs,
}

impl Client {
    /// The client of this node, whose requests that took effect are counted there.
    pub fn new(node: NodeId, done: &Counter) -> Result<Client, AllocError> {
        Ok(Client {
            node,
            done: Arc::try_clone(done)?,
            submitted: Inputs::none(),
        })
    }

    /// Whether this request of it took effect.
    fn is_done(&self, request: Request) -> bool {
        self.done.load(Ordering::SeqCst) >= request.number() as u64
    }

    /// Whether its request of this number took effect.
    pub fn has_done(&self, number: u8) -> bool {
        self.done.load(Ordering::SeqCst) >= number as u64
    }

    /// Submits its request of this number: the first attaches, and each further one says a line.
    pub fn ask<M: Marking, R: Wait>(
        &self,
        rt: &R,
        alloc: Global,
        crew: &Crew<M>,
        number: u8,
    ) -> Result<(), Fail> {
        let bytes = numbered(alloc, self.node, number)?;
        let (body, _) = M::Command::take(alloc, bytes.as_slice()).map_err(|_| "spelling")?;
        crew.node(self.node)?.submit(rt, Note::Ask(body))?;
        Ok(())
    }

    /// Submits a request.
    fn submit<M: Marking, R: Wait>(
        &mut self,
        rt: &R,
        alloc: Global,
        crew: &Crew<M>,
        request: Request,
    ) -> Result<(), Fail> {
        let bytes = request.spelled(alloc, self.node)?;
        let (body, _) = M::Command::take(alloc, bytes.as_slice()).map_err(|_| "spelling")?;
        crew.node(self.node)?.submit(rt, Note::Ask(body))?;
        self.submitted.count_request(request);
        Ok(())
    }
}

/// How often node 1 is told to beat while clients ask.
#[derive(Clone, Copy, Debug, PartialEq, Eq)]
pub enum Pace {
    /// Every ten polls, so that all nodes soon know what is agreed.
    Fast,
    /// Once a request, so that no other node knows that the last one is agreed.
    Slow,
}

impl Pace {
    /// How many polls there are from one beat to the next.
    fn polls(self) -> u64
        ensures { 0 < result }
    {
        match self {
            Pace::Fast => POLLS_A_REQUEST / 10,
            Pace::Slow => POLLS_A_REQUEST,
        }
    }
}

/// Each client asks for its requests in turn. Gives how often node 1 was told to beat.
pub fn ask_all<M: Marking, R: Wait + Clock>(
    rt: &R,
    alloc: Global,
    crew: &Crew<M>,
    clients: &mut [Client],
    pace: Pace,
) -> Result<u64, Fail> {
    let mut beats = 0u64;
    for request in Request::ALL {
        beats = beats.saturating_add(ask_each(rt, alloc, crew, clients, *request, pace)?);
    }
    Ok(beats)
}

/// Each client asks for this, and again until it took effect. Gives how often node 1 was told to
/// beat, some polls behind each request, so that no message of the one replaces one of the other.
fn ask_each<M: Marking, R: Wait + Clock>(
    rt: &R,
    alloc: Global,
    crew: &Crew<M>,
    clients: &mut [Client],
    request: Request,
    pace: Pace,
) -> Result<u64, Fail> {
    let mut beats = 0u64;
    for poll in 0..MOST_POLLS {
        if clients.iter().all(|client| client.is_done(request)) {
            return Ok(beats);
        }
        if poll % POLLS_A_REQUEST == 0 {
            submit_again(rt, alloc, crew, clients, request)?;
        }
        if poll % pace.polls() == POLLS_BEHIND {
            crew.node(NodeId::new(1))?.submit(rt, Note::Beat)?;
            beats = beats.saturating_add(1);
        }
        rest(rt);
    }
    Err(Fail::from("a request did not take effect"))
}

/// Each client for which this did not take effect submits it.
fn submit_again<M: Marking, R: Wait>(
    rt: &R,
    alloc: Global,
    crew: &Crew<M>,
    clients: &mut [Client],
    request: Request,
) -> Result<(), Fail> {
    for client in clients {
        if !client.is_done(request) {
            client.submit(rt, alloc, crew, request)?;
        }
    }
    Ok(())
}
