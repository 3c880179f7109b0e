//! Many requests at once at a node that follows, requests while the leader is busy, and a node that waits for a
//! leader that it knows.
use crate::running::client::Client;
use crate::running::clusters::{Counter, Crew, MOST_POLLS, lead, rest};
use crate::running::story::Told;
use machine_laws::{Hosted, Machine, Marking};
use node_notes::Note;
use raft_log::NodeId;
use std::alloc::Global;
use std::rt::Clock;
use std::sync::Wait;
use std::sync::atomic::Ordering;
use std::test::Fail;

/// How often a node is told to beat that is to be busy.
const MANY_BEATS: u64 = 3_000;

/// Node 1 leads, and the client asks at once to attach and to say a line so often. The log has one entry
/// for each, behind the one of node 1's election.
pub fn ask_at_once<M: Marking, R: Wait + Clock>(
    rt: &R,
    alloc: Global,
    crew: &Crew<M>,
    client: Client,
    count: u8,
) -> Result<Told, Fail> {
    lead(rt, crew)?;
    for number in 1..count.saturating_add(1) {
        client.ask(rt, alloc, crew, number)?;
    }
    for poll in 0..MOST_POLLS {
        if client.has_done(count) {
            return Ok(Told::Log(count as u64 + 1));
        }
        if poll % 50 == 0 {
            crew.node(NodeId::new(1))?.submit(rt, Note::Beat)?;
        }
        rest(rt);
    }
    Err(Fail::from("a request did not take effect"))
}

/// Node 1 leads, and is told to beat so often that it sends again and again. What the client asks meanwhile
/// takes effect before node 1 has done all that.
pub fn ask_while_busy<M: Marking, R: Wait + Clock>(
    rt: &R,
    alloc: Global,
    crew: &Crew<M>,
    client: Client,
    turns: Counter,
) -> Result<Told, Fail> {
    lead(rt, crew)?;
    let over = turns.load(Ordering::SeqCst).saturating_add(MANY_BEATS);
    for _ in 0..MANY_BEATS {
        crew.node(NodeId::new(1))?.submit(rt, Note::Beat)?;
    }
    for number in 1..4 {
        client.ask(rt, alloc, crew, number)?;
    }
    for _ in 0..MOST_POLLS {
        if client.has_done(3) {
            if turns.load(Ordering::SeqCst) >= over {
                return Err(Fail::from("the requests waited for node 1 to be idle"));
            }
            return Ok(Told::Lines(Vec::new(alloc)));
        }
        rest(rt);
    }
    Err(Fail::from("a request did not take effect"))
}

/// Node 1 leads, and node 2 has heard of it. Told that it waited too long while it had heard of no
/// leader, node 2 does nothing; told so whatever it heard, it asks for votes.
pub fn wait_twice<M: Marking, R: Wait + Clock>(
    rt: &R,
    alloc: Global,
    crew: &Crew<M>,
) -> Result<Told, Fail> {
    lead(rt, crew)?;
    let second = NodeId::new(2);
    for poll in 0..MOST_POLLS {
        if poll % 50 == 0 {
            crew.node(NodeId::new(1))?.submit(rt, Note::Beat)?;
        }
        let status = crew.node(second)?.status(rt)?;
        if status.last.value() > 0 {
            let term = status.term;
            crew.node(second)?.submit(rt, Note::Timeout(0))?;
            if crew.node(second)?.status(rt)?.term != term {
                return Err(Fail::from("node 2 asked for votes"));
            }
            crew.node(second)?.submit(rt, Note::Timeout(u64::MAX))?;
            if crew.node(second)?.status(rt)?.term == term {
                return Err(Fail::from("node 2 did not ask for votes"));
            }
            return Ok(Told::Lines(Vec::new(alloc)));
        }
        rest(rt);
    }
    Err(Fail::from("node 2 has heard of no leader"))
}
