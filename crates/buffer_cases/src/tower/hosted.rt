//! What a node asks of the tower that it hosts, by examples.
use crate::made::check_bytes;
use crate::tower::bodies::{ATTACH, CLAIM, HEARD, OPENED, SAY, taken};
use crate::tower::told::{Told, machine_after};
use bouncer_tower::Tower;
use buffer_commands::Setup;
use std::alloc::Global;
use std::process::Abort;
use std::test::Fail;
use wire_bytes::Number;

const PLAYED: &[u8] = b":***!bouncer@local PRIVMSG #x :Buffer Playback...\n\
    :a!b@c PRIVMSG #x :[22:13:20] w\n\
    :***!bouncer@local PRIVMSG #x :Playback Complete.\n";

/// Whether this is the number of the line that is to be claimed next after these bodies.
fn is_next_claim<M: Told>(
    alloc: Global,
    setup: M::Setup,
    bodies: &[&[u8]],
    want: Option<Number>,
) -> Result<bool, Fail> {
    let machine = machine_after::<M>(alloc, setup, bodies)?;
    Ok(machine.next_claim() == want)
}

/// Appends what a machine plays of a target, a line each.
fn push_played<M: Told>(out: &mut Vec<u8>, machine: &M, target: &M::Target) -> Result<(), Fail> {
    for line in &machine.playback(target)? {
        out.extend_from_slice(M::spelling(line))?;
        out.push(b'\n')?;
    }
    Ok(())
}

/// A machine plays this of the channel `#X`.
fn check_played<M: Told>(
    rt: &impl Abort,
    alloc: Global,
    machine: &M,
    wanted: &[u8],
) -> Result<(), Fail> {
    let target = taken::<M::Target>(alloc, b"\0\x02#X")?;
    let mut out = Vec::new(alloc);
    push_played::<M>(&mut out, machine, &target)?;
    check_bytes(rt, &out, wanted);
    Ok(())
}

/// After a line in the channel `#x` it is played twice.
fn check_played_twice<M: Told>(
    rt: &impl Abort,
    alloc: Global,
    setup: M::Setup,
) -> Result<(), Fail> {
    let machine = machine_after::<M>(alloc, setup, &[OPENED, HEARD])?;
    check_played::<M>(rt, alloc, &machine, PLAYED)?;
    check_played::<M>(rt, alloc, &machine, PLAYED)
}

#[test]
fn a_tower_tells_its_next_claim_and_plays_what_it_keeps(rt: HostRuntime) -> Result<(), Fail> {
    let alloc = rt.alloc();
    let bodies = [OPENED, ATTACH, SAY, CLAIM];
    let first = Some(Number::new(1));
    assert!(rt; is_next_claim::<Tower>(alloc, Setup::plain(alloc)?, &bodies[..3], first)?);
    assert!(rt; is_next_claim::<Tower>(alloc, Setup::plain(alloc)?, &bodies, None)?);
    check_played_twice::<Tower>(&rt, alloc, Setup::plain(alloc)?)
}
