//! What a node is about to do, by examples.
ghost use Rattle.std.specs.Prelude.{◌≡◌, IfOk};

use machine_laws::Source;
use node_steps::{
    Refusal, Unprepared, on_ask, on_claim, on_closed, on_heard, on_message, on_opened, on_timeout,
};
use raft_log::{
    Entry, GroupSize, Kind, Live, Log, LoggedBody, Message, NodeId, NodeState, Peers, Position,
    Standing, Step,
};
use std::alloc::{AllocError, Global};
use std::process::Abort;
use std::test::Fail;
use toy_machine::Toy;
use wire_bytes::{Moment, Number, Origin, SessionId};

fn number(value: u8) -> Number
    ensures { result ≡ value }
{
    Number::new(value as u64)
}

/// What is asked, and what a leader's first entry has.
const BODY: u8 = 9;

fn body(alloc: Global) -> Result<LoggedBody<u8>, AllocError> {
    LoggedBody::new(alloc, BODY)
}

/// A node of term 4 in a group of three, in its second run, which opened one session.
fn standing(position: Position) -> Result<Standing, Fail>
    ensures position { IfOk result (λ s. s.position ≡ position) }
    ensures commit { IfOk result (λ s. s.commit ≡ 0) }
{
    let Some(size) = GroupSize::new(3) else {
        return Err(Fail::from("no such size"));
    };
    Ok(Standing {
        boot: number(2),
        term: number(4),
        vote: None,
        position,
        commit: number(0),
        applied: number(0),
        peers: Peers::new(size),
        attempts: number(1),
    })
}

/// The session of attempt 1, which has heard two lines.
fn live() -> Live {
    Live {
        id: SessionId::new(4, 1),
        next: number(3),
    }
}

/// A log of three entries.
fn log(alloc: Global) -> Result<Log<u8>, AllocError> {
    let mut log = Log::new(alloc);
    for term in [1u8, 1, 2] {
        if !log.is_full() {
            let term = number(term);
            let body = body(alloc)?;
            log.push(Entry { term, body })?;
        }
    }
    Ok(log)
}

fn prepared(outcome: Result<Step<u8>, Unprepared>) -> Result<Step<u8>, Fail> {
    match outcome {
        Ok(step) => Ok(step),
        Err(_) => Err(Fail::from("no step was prepared")),
    }
}

fn refusal(outcome: &Result<Step<u8>, Unprepared>) -> Option<Refusal> {
    match outcome {
        Err(Unprepared::Refused(refusal)) => Some(*refusal),
        _ => None,
    }
}

/// The session after a step: its attempt, and the number of its next line.
fn session(step: &Step<u8>) -> Option<(u64, u64)> {
    let live = step.standing.position.live();
    match live {
        Some(live) => Some((live.id.attempt(), live.next.value())),
        None => None,
    }
}

/// The term and the vote after a step.
fn voted(step: &Step<u8>) -> (u64, Option<u8>) {
    let vote = match step.standing.vote {
        Some(node) => Some(node.value()),
        None => None,
    };
    (step.standing.term.value(), vote)
}

/// The nodes to which a step sends requests for a vote in term 5.
fn asked(alloc: Global, step: &Step<u8>) -> Result<Vec<u8>, AllocError> {
    let mut nodes = Vec::new(alloc);
    for message in &step.messages {
        if let Kind::RequestVote { .. } = &message.kind {
            if message.term.value() == 5 {
                nodes.push(message.to)?;
            }
        }
    }
    Ok(nodes)
}

/// Whether a follower's timeout asks nodes 2 and 3 for their votes, in term 5.
fn asks_others(alloc: Global) -> Result<bool, Fail> {
    let standing = standing(Position::Follower(None))?;
    let step = prepared(on_timeout(alloc, standing, &log(alloc)?, NodeId::new(1)))?;
    let nodes = asked(alloc, &step)?;
    Ok(voted(&step) == (5, Some(1)) && nodes.as_slice() == [2, 3].as_slice())
}

/// What comes of an ask at node 1.
fn ask(alloc: Global, position: Position, source: Source) -> Result<Option<Refusal>, Fail> {
    let log = log(alloc)?;
    let id = NodeId::new(1);
    let standing = standing(position)?;
    Ok(refusal(&on_ask(alloc, standing, &log, id, source, BODY)))
}

#[test]
fn an_ask_is_refused_where_no_leader_is_known_or_its_origin_is_another(
    rt: HostRuntime,
) -> Result<(), Fail> {
    let follower = Position::Follower(None);
    let own = Source::Client(Origin::new(1, 2, 7));
    let other_node = Source::Client(Origin::new(2, 2, 7));
    let other_run = Source::Client(Origin::new(1, 1, 7));
    assert!(rt; ask(rt.alloc(), follower, own)? == Some(Refusal::NoLeader));
    assert!(rt; ask(rt.alloc(), follower, other_node)? == Some(Refusal::BadOrigin));
    assert!(rt; ask(rt.alloc(), follower, other_run)? == Some(Refusal::BadOrigin));
    assert!(rt;
        ask(rt.alloc(), Position::Leader(None), Source::Run(1, 1))? == Some(Refusal::BadOrigin)
    );
    Ok(())
}

/// What comes of an ask of a leader's run.
fn appended(alloc: Global) -> Result<Step<u8>, Fail> {
    let leader = standing(Position::Leader(None))?;
    let (id, source) = (NodeId::new(1), Source::Run(1, 2));
    prepared(on_ask(alloc, leader, &log(alloc)?, id, source, BODY))
}

/// A step leaves this session and adds an entry of term 4 with this body.
fn check_step(rt: &impl Abort, step: &Step<u8>, live: Option<(u64, u64)>, body: u8) {
    assert!(rt; session(step) == live);
    assert!(rt;
        match step.entries.as_slice() {
            [entry] => entry.term.value() == 4 && *entry.body.get() == body,
            _ => false,
        }
    );
}

/// What comes of an opening at a leader.
fn opened(alloc: Global) -> Result<Step<u8>, Fail> {
    let leader = standing(Position::Leader(None))?;
    prepared(on_opened::<Toy>(alloc, leader, &log(alloc)?))
}

/// What comes of the end of the session.
fn closed(alloc: Global) -> Result<Step<u8>, Fail> {
    prepared(on_closed::<Toy>(
        alloc,
        standing(Position::Leader(Some(live())))?,
        &log(alloc)?,
    ))
}

/// What comes of a line of the session.
fn heard(alloc: Global) -> Result<Step<u8>, Fail> {
    let (live, log) = (live(), log(alloc)?);
    if live.next > log.len() {
        return Err(Fail::from("a line is no entry"));
    }
    let leader = standing(Position::Leader(Some(live)))?;
    prepared(on_heard::<Toy>(alloc, leader, &log, Moment::new(50), 0))
}

/// What comes of a claim of the session.
fn claimed(alloc: Global) -> Result<Step<u8>, Fail> {
    let claim = Some(number(1));
    prepared(on_claim::<Toy>(
        alloc,
        standing(Position::Leader(Some(live())))?,
        &log(alloc)?,
        claim,
    ))
}

/// A leader appends what is asked, opens the session of its next attempt, shuts one that ends, and counts a line, but not
/// a claim.
#[test]
fn a_leader_appends_what_is_asked_and_what_its_session_brings(rt: HostRuntime) -> Result<(), Fail> {
    let alloc = rt.alloc();
    check_step(&rt, &appended(alloc)?, None, 9);
    check_step(&rt, &opened(alloc)?, Some((2, 1)), 1);
    check_step(&rt, &closed(alloc)?, None, 2);
    check_step(&rt, &heard(alloc)?, Some((1, 4)), 3);
    check_step(&rt, &claimed(alloc)?, Some((1, 3)), 4);
    Ok(())
}

/// What comes of a request for a vote of term 5, from node 2.
fn requested(alloc: Global, to: u8) -> Result<(u64, Option<u8>), Fail> {
    let state = NodeState {
        standing: standing(Position::Follower(None))?,
        log: log(alloc)?,
    };
    let kind = Kind::RequestVote {
        last_index: number(3),
        last_term: number(2),
    };
    let message = Message {
        term: number(5),
        from: 2,
        to,
        kind,
    };
    let step = on_message(alloc, &state, NodeId::new(1), message, BODY)?;
    Ok(voted(&step))
}

/// A timeout asks the others for their votes; a request of a larger term gets the vote, and one to another node
/// nothing.
#[test]
fn votes_are_asked_for_and_given(rt: HostRuntime) -> Result<(), Fail> {
    assert!(rt; asks_others(rt.alloc())?);
    assert!(rt; requested(rt.alloc(), 1)? == (5, Some(2)));
    assert!(rt; requested(rt.alloc(), 3)? == (4, None));
    Ok(())
}
