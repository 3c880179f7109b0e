//! Mailboxes of nodes in their seats.
ghost use Rattle.std.specs.Prelude.{IfOk};
ghost use Rattle.node_cases.specs.Seats.{IsSeated};

use crate::tickets::passes::{is_taken, taken, two_of_three};
use crate::tickets::seated::Seated;
use ether::Ether;
use machine_laws::{Hosted, Machine};
use stable_store::{MemoryStore, Stable};
use std::alloc::Global;
use std::process::Abort;
use std::test::Fail;
use toy_machine::Toy;
use world_views::{NodeEvent, NodeInput};

type ToySeated = Seated<Toy, MemoryStore<u8>>;

/// An ether for three nodes, of which nodes 1 and 2 were opened, in turn.
fn two_seated(rt: &impl Abort, alloc: Global) -> Result<(Ether<Toy>, ToySeated, ToySeated), Fail>
    ensures { IfOk result (λ r. IsSeated r.0 r.1.pass r.1.node r.1.sent
        × IsSeated r.0 r.2.pass r.2.node r.2.sent) }
{
    let (ether, one, two) = two_of_three::<Toy>(alloc, &0)?;
    let (first, one) = Seated::open(alloc, &ether, one, MemoryStore::new(alloc))?;
    let (second, two) = Seated::open(alloc, &ether, two, MemoryStore::new(alloc))?;
    assert!(rt; first == 0 && second == 1);
    Ok((ether, one, two))
}

/// Node 1 waits too long for a leader twice, and node 2 takes what it then asked.
fn check_timeouts<M: Hosted, S: Stable<M::Command>>(
    rt: &impl Abort,
    ether: &Ether<M>,
    one: &mut Seated<M, S>,
    two: &mut Seated<M, S>,
) -> Result<(), Fail>
    requires one { IsSeated ether.now one.old.pass one.old.node one.old.sent }
    requires two { IsSeated ether.now two.old.pass two.old.node two.old.sent }
{
    let (third, older) = one.act_and_post(ether, NodeEvent::Does(NodeInput::Timeout))?;
    assert!(rt; third == 2 && one.sent == 2 && older.is_none());
    let (fourth, older) = one.act_and_post(ether, NodeEvent::Does(NodeInput::Timeout))?;
    assert!(rt; fourth == 3 && one.sent == 4 && older == Some(1));
    assert!(rt; !is_taken(ether, &mut one.pass, 1));
    assert!(rt; taken(ether, &mut two.pass, 0) == Some(3));
    assert!(rt; is_taken(ether, &mut one.pass, 1));
    assert!(rt; taken(ether, &mut two.pass, 0).is_none());
    Ok(())
}

#[test]
fn tickets_and_messages_of_three_nodes(rt: HostRuntime) -> Result<(), Fail> {
    let (ether, mut one, mut two) = two_seated(&rt, rt.alloc())?;
    check_timeouts(&rt, &ether, &mut one, &mut two)
}

/// Node 1 asks for node 2's vote, is given it, and beats a thousand times. Node 2 takes the newest.
fn check_beats<M: Hosted, S: Stable<M::Command>>(
    rt: &impl Abort,
    ether: &Ether<M>,
    one: &mut Seated<M, S>,
    two: &mut Seated<M, S>,
) -> Result<(), Fail>
    requires one { IsSeated ether.now one.old.pass one.old.node one.old.sent }
    requires two { IsSeated ether.now two.old.pass two.old.node two.old.sent }
{
    one.act_and_post(ether, NodeEvent::Does(NodeInput::Timeout))?;
    two.answer(ether, 0)?;
    one.receive(ether, 1)?;
    let older = one.beat(ether, 1_000)?;
    assert!(rt; older == 999 && one.sent == 2_002);
    assert!(rt; taken(ether, &mut two.pass, 0) == Some(2_001));
    assert!(rt; taken(ether, &mut two.pass, 0).is_none());
    Ok(())
}

#[test]
fn of_a_thousand_beats_the_newest_is_taken(rt: HostRuntime) -> Result<(), Fail> {
    let (ether, mut one, mut two) = two_seated(&rt, rt.alloc())?;
    check_beats(&rt, &ether, &mut one, &mut two)
}
