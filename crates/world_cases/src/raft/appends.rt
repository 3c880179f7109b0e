//! Appends and what is committed, by examples.
ghost use Rattle.std.specs.Prelude.{◌≡◌, ◌≤◌, IfOk};
ghost use Rattle.raft_log.specs.Steps.{IsWithinLog};

use raft_log::{
    Batch, Entry, GroupSize, Kind, Log, LoggedBody, Message, NodeId, NodeState, Peers, Position,
    Role, Standing, Step,
};
use replication::{ask, beat, commit_place, on_append, on_append_reply, on_forward, on_vote};
use std::alloc::{AllocError, Global};
use std::process::Abort;
use std::test::Fail;
use wire_bytes::Number;

fn number(value: u8) -> Number
    ensures { result ≡ value }
{
    Number::new(value as u64)
}

fn entry(alloc: Global, term: u8) -> Result<Entry<u8>, AllocError> {
    Ok(Entry {
        term: number(term),
        body: LoggedBody::new(alloc, 0)?,
    })
}

/// A log of these terms.
fn log_of(alloc: Global, terms: &[u8]) -> Result<Log<u8>, AllocError> {
    let mut log = Log::new(alloc);
    for term in terms {
        if !log.is_full() {
            log.push(entry(alloc, *term)?)?;
        }
    }
    Ok(log)
}

/// A node of term 3 in a group of five.
fn standing(position: Position) -> Result<Standing, Fail> {
    let Some(size) = GroupSize::new(5) else {
        return Err(Fail::from("no such size"));
    };
    Ok(Standing {
        boot: number(1),
        term: number(3),
        vote: None,
        position,
        commit: number(0),
        applied: number(0),
        peers: Peers::new(size),
        attempts: number(0),
    })
}

/// The place that node 1, a leader of term 3, may commit, where nodes 2 and 3 have the first entry.
fn committed(alloc: Global, terms: &[u8]) -> Result<Option<u64>, Fail> {
    let log = log_of(alloc, terms)?;
    let mut leader = standing(Position::Leader(None))?;
    let peers = leader.peers.with_match(NodeId::new(2), number(1));
    leader.peers = peers.with_match(NodeId::new(3), number(1));
    Ok(match commit_place(&leader, &log, NodeId::new(1)) {
        None => None,
        Some(place) => Some(place.value()),
    })
}

/// What a step leaves: how many entries stay and how many follow them, and its commit.
fn left(step: &Step<u8>) -> (u64, usize, u64) {
    let commit = step.standing.commit.value();
    (step.keep.value(), step.entries.len(), commit)
}

fn role(step: &Step<u8>) -> Role {
    step.standing.position.role()
}

/// The leader that a step's node knows.
fn known(step: &Step<u8>) -> Option<u8> {
    match step.standing.position.leader() {
        None => None,
        Some(node) => Some(node.value()),
    }
}

/// To whom entries were taken or refused, and up to which place, where one answer is sent.
fn answered(messages: &[Message<u8>]) -> Option<(u8, bool, u64)> {
    match messages {
        [message] => match &message.kind {
            Kind::AppendReply { ok, place } => Some((message.to, *ok, place.value())),
            _ => None,
        },
        _ => None,
    }
}

/// The term 3's entry behind a place of term 1, from a leader that committed place 9.
fn batch(alloc: Global, prev: u8) -> Result<Batch<u8>, AllocError> {
    let mut entries = Vec::with_capacity(alloc, 1)?;
    entries.push(entry(alloc, 3)?)?;
    Ok(Batch::new(number(prev), number(1), entries, number(9)))
}

/// What node 1, with a log of terms 1, 1, 2, 2, makes of the batch behind a place, from node 2.
fn appended(alloc: Global, position: Position, prev: u8) -> Result<Step<u8>, Fail> {
    let log = log_of(alloc, &[1, 1, 2, 2])?;
    let (own, leader) = (NodeId::new(1), NodeId::new(2));
    let node = standing(position)?;
    let sent = batch(alloc, prev)?;
    Ok(on_append(alloc, node, &log, own, leader, number(3), sent)?)
}

fn check_taken(rt: &impl Abort, step: &Step<u8>) {
    assert!(rt; left(step) == (2, 1, 3));
    assert!(rt; known(step) == Some(2));
    assert!(rt; answered(&step.messages) == Some((2, true, 3)));
}

fn check_refused(rt: &impl Abort, step: &Step<u8>) {
    assert!(rt; left(step) == (4, 0, 0));
    assert!(rt; answered(&step.messages) == Some((2, false, 3)));
}

/// Node 1 of a group of five in term 3, with the votes of nodes 1 and 2.
fn candidate() -> Result<Standing, Fail> {
    let candidate = standing(Position::Candidate)?;
    let voted = candidate.peers.only(NodeId::new(1));
    let peers = voted.with_vote(NodeId::new(2));
    Ok(Standing { peers, ..candidate })
}

/// What the vote of node 5 makes of it, with a log of one entry of term 1.
fn elected(alloc: Global) -> Result<Step<u8>, Fail> {
    let log = log_of(alloc, &[1])?;
    let from = NodeId::new(5);
    Ok(on_vote(alloc, candidate()?, &log, from, number(3), true, 0)?)
}

fn check_elected(rt: &impl Abort, step: &Step<u8>) {
    assert!(rt; role(step) == Role::Leader);
    assert!(rt; left(step) == (1, 1, 0));
}

/// A leader of a group of five in term 3 by these votes, over an empty log, once the blank body stands.
fn leader(alloc: Global) -> Result<NodeState<u8>, Fail>
    ensures { IfOk result (λ s. IsWithinLog s.standing s.log) }
{
    let mut log = Log::new(alloc);
    let from = NodeId::new(5);
    let mut candidate = candidate()?;
    candidate.commit = number(0);
    candidate.position = Position::Candidate;
    let step = on_vote(alloc, candidate, &log, from, number(3), true, 0)?;
    let standing = step.standing;
    log.put_behind(step.keep, step.entries)?;
    Ok(NodeState { standing, log })
}

/// The leader once a node answers that its log is the same up to the first place.
fn answered_by(alloc: Global, state: NodeState<u8>, node: u8) -> Result<NodeState<u8>, Fail>
    requires known { 1 ≤ node }
    requires group { node ≤ 7 }
    requires within { IsWithinLog state.standing state.log }
    ensures { IfOk result (λ s. IsWithinLog s.standing s.log) }
{
    let NodeState { standing, mut log } = state;
    let (own, from) = (NodeId::new(1), NodeId::new(node));
    let step = on_append_reply(alloc, standing, &log, own, from, number(3), true, number(1));
    let standing = step.standing;
    log.put_behind(step.keep, step.entries)?;
    Ok(NodeState { standing, log })
}

/// The commit of the leader once node 2 answered so, and maybe node 3 too.
fn committed_by(alloc: Global, both: bool) -> Result<u64, Fail> {
    let once = answered_by(alloc, leader(alloc)?, 2)?;
    if both {
        let twice = answered_by(alloc, once, 3)?;
        return Ok(twice.standing.commit.value());
    }
    Ok(once.standing.commit.value())
}

/// An entry of an older term is not committed by counting, and a third log of five commits.
#[test]
fn what_most_logs_have_is_committed(rt: HostRuntime) -> Result<(), Fail> {
    assert!(rt; committed(rt.alloc(), &[1])? == None);
    assert!(rt; committed(rt.alloc(), &[3])? == Some(1));
    assert!(rt; committed_by(rt.alloc(), false)? == 0);
    assert!(rt; committed_by(rt.alloc(), true)? == 1);
    Ok(())
}

/// To whom entries go that follow the place 0, one each.
fn appended_to(alloc: Global, messages: &[Message<u8>]) -> Result<Vec<u8>, AllocError> {
    let mut nodes = Vec::new(alloc);
    for message in messages {
        if let Kind::Append(batch) = &message.kind {
            if (batch.prev_index().value(), batch.entries().len()) == (0, 1) {
                nodes.push(message.to)?;
            }
        }
    }
    Ok(nodes)
}

/// Whether the leader sends its entries to nodes 2 to 5.
fn sends_to_all(alloc: Global) -> Result<bool, Fail> {
    let leader = leader(alloc)?;
    let step = beat(alloc, leader.standing, &leader.log, NodeId::new(1))?;
    let nodes = appended_to(alloc, &step.messages)?;
    Ok(nodes.as_slice() == [2, 3, 4, 5].as_slice())
}

/// To whom a body is sent, where one message is.
fn forwarded_to(messages: &[Message<u8>]) -> Option<(u8, u8)> {
    match messages {
        [message] => match &message.kind {
            Kind::Forward(body) => Some((message.to, *body.get())),
            _ => None,
        },
        _ => None,
    }
}

/// What a leader with a log of one entry makes of a body that it is sent.
fn forwarded(alloc: Global) -> Result<Step<u8>, Fail> {
    let log = log_of(alloc, &[1])?;
    let leads = standing(Position::Leader(None))?;
    Ok(on_forward(alloc, leads, &log, LoggedBody::new(alloc, 7)?)?)
}

/// What node 1, which follows node 4, makes of a body that it is asked for.
fn asked(alloc: Global) -> Result<Step<u8>, Fail> {
    let log = log_of(alloc, &[1])?;
    let follows = standing(Position::Follower(Some(NodeId::new(4))))?;
    let own = NodeId::new(1);
    Ok(ask(alloc, follows, &log, own, LoggedBody::new(alloc, 7)?)?)
}

/// Of what a leader and what a follower makes of a body.
fn check_bodies(rt: &impl Abort, leads: &Step<u8>, follows: &Step<u8>) {
    assert!(rt; left(leads) == (1, 1, 0));
    assert!(rt; left(follows) == (1, 0, 0));
    assert!(rt; forwarded_to(&follows.messages) == Some((4, 7)));
}

/// Entries of the leader take the place of others, and those behind another term are refused.
#[test]
fn entries_are_taken_or_refused(rt: HostRuntime) -> Result<(), Fail> {
    let follower = Position::Follower(None);
    check_taken(&rt, &appended(rt.alloc(), Position::Candidate, 2)?);
    check_refused(&rt, &appended(rt.alloc(), follower, 3)?);
    Ok(())
}

/// The vote that elects appends a blank body, a leader sends its entries to all others, and a body goes behind
/// its log.
#[test]
fn a_leader_appends_and_sends(rt: HostRuntime) -> Result<(), Fail> {
    check_elected(&rt, &elected(rt.alloc())?);
    assert!(rt; sends_to_all(rt.alloc())?);
    check_bodies(&rt, &forwarded(rt.alloc())?, &asked(rt.alloc())?);
    Ok(())
}
