//! Nodes over stores, by examples.
use crate::raft::failing::Failing;
use node_steps::Refusal;
use raft_log::{GroupSize, Kind, Message, NodeId};
use raft_node::{Cause, Input, Node, NodeFault};
use stable_store::{MemoryStore, Stable};
use std::alloc::{AllocError, Global};
use std::process::Abort;
use std::test::Fail;
use toy_machine::Toy;
use wire_bytes::Number;

type ToyNode = Node<Toy, MemoryStore<u8>>;

/// Node 1 of a group of three, in its first run over this store.
fn started<S: Stable<u8>>(alloc: Global, store: S) -> Result<Node<Toy, S>, NodeFault> {
    match GroupSize::new(3) {
        None => Err(NodeFault::Down(Cause::Memory)),
        Some(size) => Node::start(alloc, NodeId::new(1), size, &0, store),
    }
}

/// The fault of a step, if it is one.
fn fault<S: Stable<u8>>(
    node: &mut Node<Toy, S>,
    input: Input<Message<u8>, u8, u8>,
) -> Option<NodeFault> {
    node.step(input).err()
}

/// What happens to a node, whatever comes out.
fn go(node: &mut ToyNode, input: Input<Message<u8>, u8, u8>) -> Result<(), Fail> {
    let _output = node.step(input)?;
    Ok(())
}

fn first_run(alloc: Global) -> Result<ToyNode, NodeFault> {
    started(alloc, MemoryStore::new(alloc))
}

/// What node 2 says to node 1 in term 1.
fn from_second(kind: Kind<u8>) -> Input<Message<u8>, u8, u8> {
    Input::Deliver(Message {
        term: Number::new(1),
        from: 2,
        to: 1,
        kind,
    })
}

/// It is elected by itself and node 2.
fn elect(node: &mut ToyNode) -> Result<(), Fail> {
    go(node, Input::Timeout)?;
    go(node, from_second(Kind::Vote { granted: true }))
}

/// It is elected, appends the body 7, and knows that node 2 has it too.
fn commit(node: &mut ToyNode) -> Result<(), Fail> {
    elect(node)?;
    go(node, Input::Ask(7))?;
    let place = Number::new(2);
    go(node, from_second(Kind::AppendReply { ok: true, place }))
}

/// Its boot, its term, its vote, and how many entries it has.
fn saved(node: &ToyNode) -> (u64, u64, u8, u64) {
    let state = node.state();
    let vote = match state.standing.vote {
        Some(node) => node.value(),
        None => 0,
    };
    let boot = state.standing.boot.value();
    (
        boot,
        state.standing.term.value(),
        vote,
        state.log.len().value(),
    )
}

/// How many entries it knows to be agreed, and how many it applied.
fn places(node: &ToyNode) -> (u64, u64) {
    let state = node.state();
    (
        state.standing.commit.value(),
        state.standing.applied.value(),
    )
}

/// Whether the messages of a step go to nodes 2 and 3.
fn asks_both(node: &mut ToyNode, input: Input<Message<u8>, u8, u8>) -> Result<bool, NodeFault> {
    let output = node.step(input)?;
    Ok(match output.messages.as_slice() {
        [one, other] => one.to == 2 && other.to == 3,
        _ => false,
    })
}

/// It follows, and asks the others for their votes.
fn check_first_run(rt: &impl Abort, node: &mut ToyNode) -> Result<(), Fail> {
    assert!(rt; saved(node) == (1, 0, 0, 0) && places(node) == (0, 0));
    assert!(rt; node.id().value() == 1 && node.down() == None && node.next_claim() == None);
    node.is_whole();
    assert!(rt; asks_both(node, Input::Timeout)?);
    assert!(rt; saved(node) == (1, 1, 1, 0));
    Ok(())
}

const BAD_ORIGIN: NodeFault = NodeFault::Refused(Refusal::BadOrigin);

/// It appends a blank, and is as it was after a refusal.
fn check_leader(rt: &impl Abort, node: &mut ToyNode) -> Result<(), Fail> {
    elect(node)?;
    assert!(rt; saved(node) == (1, 1, 1, 1));
    assert!(rt; asks_both(node, Input::Beat)?);
    assert!(rt; fault(node, Input::Ask(8)) == Some(BAD_ORIGIN));
    assert!(rt; saved(node) == (1, 1, 1, 1));
    assert!(rt; fault(node, Input::Ask(7)).is_none());
    Ok(())
}

/// Whether the next step of the machine is at this place, with these effects.
fn applies(node: &mut ToyNode, place: u64, effects: &[u8]) -> Result<bool, NodeFault> {
    let output = node.step(Input::Apply)?;
    Ok(output.place.value() == place && output.effects.as_slice() == effects)
}

/// Whether a look for place 2 plays this.
fn plays(node: &ToyNode, lines: &[u8]) -> Result<bool, NodeFault> {
    let looked = node.look(&0, 2)?;
    Ok(looked.place.value() == 2 && looked.lines.as_slice() == lines)
}

/// Whether a look for the wanted place is refused, since the node is at this one.
fn is_behind(node: &ToyNode, wanted: u64, place: u8) -> bool {
    let behind = NodeFault::Refused(Refusal::Behind(Number::new(place as u64)));
    node.look(&0, wanted).err() == Some(behind)
}

/// What a majority has is applied place by place, and played.
fn check_applied(rt: &impl Abort, node: &mut ToyNode) -> Result<(), Fail> {
    commit(node)?;
    assert!(rt; places(node) == (2, 0) && node.committed()?.len() == 2);
    assert!(rt; applies(node, 1, &[])?);
    assert!(rt; applies(node, 2, &[7])?);
    assert!(rt; plays(node, &[7])? && is_behind(node, 3, 2));
    assert!(rt; applies(node, 0, &[])?);
    assert!(rt; places(node) == (2, 2));
    Ok(())
}

const STORE_FAILED: NodeFault = NodeFault::Down(Cause::Store);

/// Over a store that fails after so many saves.
fn failing(alloc: Global, left: u8) -> Result<Node<Toy, Failing>, NodeFault> {
    started(alloc, Failing { alloc, left })
}

fn check_down(rt: &impl Abort, node: &mut Node<Toy, Failing>) {
    assert!(rt; fault(node, Input::Timeout) == Some(STORE_FAILED));
    assert!(rt; node.state().standing.term.value() == 0);
    assert!(rt; node.down() == Some(Cause::Store));
    assert!(rt; fault(node, Input::Apply) == Some(STORE_FAILED));
    assert!(rt; node.look(&0, 0).err() == Some(STORE_FAILED));
    assert!(rt; node.restart().err() == Some(STORE_FAILED));
}

#[test]
fn a_node_whose_store_fails_is_down_and_shows_the_state_from_before(
    rt: HostRuntime,
) -> Result<(), Fail> {
    assert!(rt; failing(rt.alloc(), 0).err() == Some(STORE_FAILED));
    check_down(&rt, &mut failing(rt.alloc(), 1)?);
    Ok(())
}

/// A restart keeps what was saved alone.
fn check_restart(rt: &impl Abort, node: &mut ToyNode) -> Result<(), Fail> {
    commit(node)?;
    go(node, Input::Apply)?;
    node.restart()?;
    assert!(rt; saved(node) == (2, 1, 1, 2) && places(node) == (0, 0));
    assert!(rt; is_behind(node, 1, 0));
    // the client of the first run is gone with it
    assert!(rt; fault(node, Input::Ask(7)) == Some(BAD_ORIGIN));
    Ok(())
}

#[test]
fn a_node_is_elected_agrees_applies_and_starts_again(rt: HostRuntime) -> Result<(), Fail> {
    check_first_run(&rt, &mut first_run(rt.alloc())?)?;
    check_leader(&rt, &mut first_run(rt.alloc())?)?;
    check_applied(&rt, &mut first_run(rt.alloc())?)?;
    check_restart(&rt, &mut first_run(rt.alloc())?)
}

/// Whether a fault is printed so.
fn is_shown(alloc: Global, fault: &NodeFault, want: &str) -> Result<bool, AllocError> {
    let shown = format!(in alloc; "{fault}")?;
    Ok(shown.as_str() == want)
}

#[test]
fn the_faults_have_numbers_and_texts(rt: HostRuntime) -> Result<(), Fail> {
    assert!(rt;
        is_shown(
            rt.alloc(),
            &STORE_FAILED,
            "the node is down: its store failed"
        )?
    );
    assert!(rt; STORE_FAILED.number() == 1 && NodeFault::Down(Cause::Memory).number() == 2);
    assert!(rt; NodeFault::Refused(Refusal::LogFull).number() == 3);
    assert!(rt; NodeFault::Refused(Refusal::TermsSpent).number() == 4);
    assert!(rt; NodeFault::Refused(Refusal::NoLeader).number() == 5);
    assert!(rt; NodeFault::Refused(Refusal::Behind(Number::new(3))).number() == 6);
    assert!(rt; BAD_ORIGIN.number() == 7);
    Ok(())
}
