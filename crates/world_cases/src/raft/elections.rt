//! Elections, by examples.
use election::{begin, on_request_vote, on_vote};
use raft_log::{
    Entry, GroupSize, Kind, Log, LoggedBody, Message, NodeId, NodeState, Peers, Position, Role,
    Standing, Step,
};
use std::alloc::{AllocError, Global};
use std::test::Fail;
use wire_bytes::Number;

/// A follower of term 2 in a group of five, with a log of terms 1, 1, 2, which gave no vote.
fn follower(alloc: Global) -> Result<NodeState<u8>, Fail> {
    let mut log = Log::new(alloc);
    for term in [1u8, 1, 2] {
        let body = LoggedBody::new(alloc, 0)?;
        let term = Number::new(term as u64);
        if !log.is_full() {
            log.push(Entry { term, body })?;
        }
    }
    let Some(size) = GroupSize::new(5) else {
        return Err(Fail::from("no such size"));
    };
    let standing = Standing {
        boot: Number::new(1),
        term: Number::new(2),
        vote: None,
        position: Position::Follower(None),
        commit: Number::new(0),
        applied: Number::new(0),
        peers: Peers::new(size),
        attempts: Number::new(0),
    };
    Ok(NodeState { standing, log })
}

/// What the follower, as node 1, answers to a request of term 3 from node 4, whose log ends so, and its vote
/// then.
fn asked(alloc: Global, last_index: u8, last_term: u8) -> Result<Option<(bool, Option<u8>)>, Fail> {
    let state = follower(alloc)?;
    let term = Number::new(3);
    let standing = state.raised(term);
    let (id, from) = (NodeId::new(1), NodeId::new(4));
    let index = Number::new(last_index as u64);
    let last = Number::new(last_term as u64);
    let step = on_request_vote(alloc, standing, &state.log, id, from, term, index, last)?;
    let (_, vote) = voted(&step);
    for message in &step.messages {
        if let Kind::Vote { granted } = &message.kind {
            if (message.term.value(), message.from, message.to) == (3, 1, 4) {
                return Ok(Some((*granted, vote)));
            }
        }
    }
    Ok(None)
}

/// To whom requests for a vote of term 3 go, from node 1, whose log ends at place 3 in term 2.
fn asked_by(alloc: Global, messages: &[Message<u8>]) -> Result<Vec<u8>, AllocError> {
    let mut nodes = Vec::new(alloc);
    for message in messages {
        if let Kind::RequestVote {
            last_index,
            last_term,
        } = &message.kind
        {
            let log = (last_index.value(), last_term.value());
            if (message.term.value(), message.from, log) == (3, 1, (3, 2)) {
                nodes.push(message.to)?;
            }
        }
    }
    Ok(nodes)
}

/// The term and the vote of a step.
fn voted(step: &Step<u8>) -> (u64, Option<u8>) {
    let vote = match step.standing.vote {
        None => None,
        Some(node) => Some(node.value()),
    };
    (step.standing.term.value(), vote)
}

/// Whether requests for a vote go to nodes 2 to 5, by a node that voted for itself in term 3.
fn asks_all(alloc: Global, step: &Step<u8>) -> Result<bool, AllocError> {
    let nodes = asked_by(alloc, &step.messages)?;
    Ok(voted(step) == (3, Some(1)) && nodes.as_slice() == [2, 3, 4, 5].as_slice())
}

/// Whether the follower does so as node 1 when it begins an election.
fn begins(alloc: Global) -> Result<bool, Fail> {
    let state = follower(alloc)?;
    let step = begin(alloc, state.standing, &state.log, NodeId::new(1))?;
    Ok(asks_all(alloc, &step)?)
}

/// The role of a node where these nodes vote for it in term 3.
fn voted_for(standing: Standing, log: &Log<u8>, voters: &[u8]) -> Role {
    let mut standing = standing;
    for from in voters {
        if *from >= 1 && *from <= 7 {
            standing = on_vote(standing, log, NodeId::new(*from), Number::new(3), true);
        }
    }
    standing.position.role()
}

/// The role of node 1 of five where these nodes vote for it in term 3.
fn elected(alloc: Global, voters: &[u8]) -> Result<Role, Fail> {
    let state = follower(alloc)?;
    let step = begin(alloc, state.standing, &state.log, NodeId::new(1))?;
    Ok(voted_for(step.standing, &state.log, voters))
}

/// A longer log of an older term and a shorter one of the same term get no vote, one as up to date does. An
/// election asks all others, and counts each vote once.
#[test]
fn votes_are_given_asked_for_and_counted(rt: HostRuntime) -> Result<(), Fail> {
    assert!(rt; asked(rt.alloc(), 5, 1)? == Some((false, None)));
    assert!(rt; asked(rt.alloc(), 2, 2)? == Some((false, None)));
    assert!(rt; asked(rt.alloc(), 3, 2)? == Some((true, Some(4))));
    assert!(rt; begins(rt.alloc())?);
    assert!(rt; elected(rt.alloc(), &[2, 2])? == Role::Candidate);
    assert!(rt; elected(rt.alloc(), &[2, 2, 4])? == Role::Leader);
    Ok(())
}
