//! Worlds, by examples.
use raft_log::{NodeId, Role};
use std::alloc::{AllocError, Global};
use std::process::Abort;
use std::test::Fail;
use toy_machine::Toy;
use world_events::{Event, Input};
use world_run::{Outcome, World};

type Events = Vec<Event<u8, u8, u8>>;

fn add(events: &mut Events, input: Input<u8, u8, u8>) -> Result<(), AllocError> {
    Ok(events.push(Event::Does(input))?)
}

/// Node 1 of three is elected by node 2, the body 7 of its client is asked for, node 2 takes what the leader
/// has, and the leader applies it. It may stop then, and is to apply one more entry.
fn agreement(alloc: Global, stops: bool) -> Result<Events, AllocError> {
    let (one, two) = (NodeId::new(1), NodeId::new(2));
    let mut events = Vec::new(alloc);
    add(&mut events, Input::Timeout(one))?;
    add(&mut events, Input::Deliver(one, 1))?;
    add(&mut events, Input::Deliver(two, 1))?;
    add(&mut events, Input::Ask(one, 7))?;
    add(&mut events, Input::Beat(one))?;
    add(&mut events, Input::Deliver(one, 3))?;
    add(&mut events, Input::Deliver(two, 2))?;
    add(&mut events, Input::Apply(one))?;
    add(&mut events, Input::Apply(one))?;
    if stops {
        events.push(Event::Restart(one))?;
        add(&mut events, Input::Apply(one))?;
    }
    Ok(events)
}

/// The world of three nodes after that.
fn agreed(alloc: Global, stops: bool) -> Result<World<Toy>, Fail> {
    let events = agreement(alloc, stops)?;
    Ok(World::<Toy>::run(alloc, 3, &0, &events)?)
}

/// How many entries the node of a number commits.
fn committed(world: &World<Toy>, node: u8) -> Result<Option<usize>, AllocError> {
    match world.committed(node)? {
        Some(entries) => Ok(Some(entries.len())),
        None => Ok(None),
    }
}

/// The role of the node of a number.
fn role(world: &World<Toy>, node: u8) -> Option<Role> {
    match world.state(node) {
        Some(state) => Some(state.standing.position.role()),
        None => None,
    }
}

/// The leader commits first, no other node is there, and a machine without lines hands none.
fn check_agreed(rt: &impl Abort, alloc: Global, world: &World<Toy>) -> Result<(), AllocError> {
    assert!(rt; world.size() == 3);
    assert!(rt; role(world, 1) == Some(Role::Leader));
    assert!(rt; role(world, 3) == Some(Role::Follower));
    assert!(rt; role(world, 4) == None);
    assert!(rt; committed(world, 1)? == Some(2) && committed(world, 2)? == Some(0));
    assert!(rt; committed(world, 4)? == None);
    let handed = world.handed(alloc)?;
    assert!(rt; handed.is_empty());
    Ok(())
}

/// The places that were applied are these, with so many effects that left at each.
fn check_left(
    rt: &impl Abort,
    alloc: Global,
    outs: &[Outcome<u8, u8>],
    wanted: &[(u64, usize)],
) -> Result<(), AllocError> {
    let mut left = Vec::new(alloc);
    for out in outs {
        if let Outcome::Left { place, effects } = out {
            left.push((place.value(), effects.len()))?;
        }
    }
    assert!(rt; left.as_slice() == wanted);
    Ok(())
}

/// Each node is as the events left it, what a majority has leaves at its node, and a stopped one applies nothing.
#[test]
fn a_world_is_as_its_events_left_it(rt: HostRuntime) -> Result<(), Fail> {
    let (alloc, left) = (rt.alloc(), [(1, 0), (2, 1)]);
    let world = agreed(alloc, false)?;
    check_agreed(&rt, alloc, &world)?;
    check_left(&rt, alloc, world.outputs(), &left)?;
    Ok(check_left(&rt, alloc, agreed(alloc, true)?.outputs(), &left)?)
}
