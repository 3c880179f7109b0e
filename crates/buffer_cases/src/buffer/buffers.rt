//! What is kept and shown, by examples.
use crate::made::{name, taken};
use buffer_commands::Setup;
use buffer_machine::BufferMachine;
use machine_laws::Machine;
use std::alloc::Global;
use std::process::Abort;
use std::test::Fail;

/// A message to the channel `#x`, 1,700,000,000 seconds after 1970.
const MESSAGE: &[u8] = b"\x02\0\0\0\0\x65\x53\xf1\0\0\x15:a!b@c PRIVMSG #x :hi";

/// The machine of a setup after a command.
fn machine_after<M: Machine>(alloc: Global, setup: M::Setup, bytes: &[u8]) -> Result<M, Fail> {
    let mut machine = M::start(alloc, &setup)?;
    let command = taken::<M::Command>(alloc, bytes)?;
    machine.apply(1, &command)?;
    Ok(machine)
}

/// How many lines a machine plays of a target.
fn count(alloc: Global, machine: &BufferMachine, target: &[u8]) -> Result<usize, Fail> {
    Ok(machine.playback(&name(alloc, target)?)?.len())
}

/// Its nick is `me`, and it plays three lines of a channel, as often as it is asked.
fn check(rt: &impl Abort, alloc: Global, machine: &BufferMachine) -> Result<(), Fail> {
    assert_eq!(rt; machine.nick().as_bytes(), b"me".as_slice());
    assert_eq!(rt; count(alloc, machine, b"#X")?, 3);
    assert_eq!(rt; count(alloc, machine, b"#X")?, 3);
    Ok(())
}

#[test]
fn shows_what_is_kept_and_who_it_is(rt: HostRuntime) -> Result<(), Fail> {
    let alloc = rt.alloc();
    let machine = machine_after::<BufferMachine>(alloc, Setup::plain(alloc)?, MESSAGE)?;
    check(&rt, alloc, &machine)
}
