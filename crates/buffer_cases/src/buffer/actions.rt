//! Actions as bytes, by examples.
use crate::made::{fault_of, is_copied_so, is_spelled_again, name, taken, text};
use buffer_commands::{Action, BufferSize, ChannelName, Verb};
use std::alloc::{AllocError, Global};
use std::test::Fail;
use wire_bytes::{Copied, WireFault};

fn kind(action: &Action) -> &'static str {
    match action {
        Action::Attach(None) => "attach",
        Action::Attach(Some(_)) => "attach by name",
        Action::Leave => "leave",
        Action::Say(Verb::Privmsg, _, _) => "privmsg",
        Action::Say(Verb::Notice, _, _) => "notice",
        Action::Join(_) => "join",
        Action::Part(_) => "part",
        Action::Detach(_) => "detach",
        Action::Reattach(_) => "reattach",
        Action::Play(_) => "play",
        Action::Clear(_) => "clear",
        Action::ClearChannels => "clear channels",
        Action::ClearQueries => "clear queries",
        Action::ClearAll => "clear all",
        Action::SetBuffer(_, _) => "set buffer",
        Action::Pass(_) => "pass",
    }
}

fn is_of_kind(alloc: Global, bytes: &[u8], want: &str) -> Result<bool, WireFault> {
    let action = taken::<Action>(alloc, bytes)?;
    Ok(kind(&action) == want)
}

/// Bytes and the kind of the action that they are.
const SPELLED: &[(&[u8], &str)] = &[
    (b"\x01", "attach"),
    (b"\x02", "leave"),
    (b"\x03\0\0\x02#x\0\x02hi", "privmsg"),
    (b"\x03\x01\0\x03bob\0\0", "notice"),
    (b"\x03\x01\0\x03bob\0\x02hi", "notice"),
    (b"\x04\0\x02#x", "join"),
    (b"\x05\0\x02&x", "part"),
    (b"\x06\0\x02+x", "detach"),
    (b"\x07\0\x02!x", "reattach"),
    (b"\x08\0\x03bob", "play"),
    (b"\x09\0\x02#x", "clear"),
    (b"\x0a", "clear channels"),
    (b"\x0b", "clear queries"),
    (b"\x0c", "clear all"),
    (b"\x0d\0\x02#x\x01\xf4", "set buffer"),
    (b"\x0e\0\x06WHO #x", "pass"),
    (b"\x0f\0\x05phone", "attach by name"),
];

/// Whether the bytes are actions of these kinds, all of them, and each is spelled so, and its copy too.
fn are_read(alloc: Global) -> Result<bool, WireFault> {
    for (bytes, want) in SPELLED {
        if !is_of_kind(alloc, bytes, want)? || !is_spelled_again::<Action>(alloc, bytes, bytes)? {
            return Ok(false);
        }
    }
    Ok(true)
}

/// Whether an action that was made is spelled so, and its copy too.
fn is_made(alloc: Global, action: Action, bytes: &[u8]) -> Result<bool, AllocError> {
    action.fits();
    is_copied_so(alloc, &action, bytes)
}

fn channel(alloc: Global, bytes: &[u8]) -> Result<ChannelName, Fail> {
    Ok(ChannelName::from_name(name(alloc, bytes)?).ok_or("no channel")?)
}

fn notice(alloc: Global) -> Result<Action, Fail> {
    Ok(Action::Say(Verb::Notice, name(alloc, b"bob")?, text(alloc, b"hi")?))
}

/// Bytes that are no action, and what is wrong with them.
const FAULTS: &[(&[u8], WireFault)] = &[
    (b"\0", WireFault::Bad(0)),
    (b"\x10", WireFault::Bad(0)),
    (b"\x04\0\x03bob", WireFault::Bad(1)),
    (b"\x05\0\x03bob", WireFault::Bad(1)),
    (b"\x06\0\x03bob", WireFault::Bad(1)),
    (b"\x07\0\x03bob", WireFault::Bad(1)),
    (b"\x08\0\0", WireFault::Bad(1)),
    (b"\x0f\0\0", WireFault::Bad(1)),
    (b"\x0f\0\x03a,b", WireFault::Bad(1)),
    (b"\x03\x02", WireFault::Bad(1)),
    (b"\x03\0\0\x02#x\0\x01\r", WireFault::Bad(6)),
    (b"\x0e\0\x06who #x", WireFault::Bad(1)),
    (b"", WireFault::Short),
    (b"\x03", WireFault::Short),
    (b"\x0f", WireFault::Short),
    (b"\x03\0\0\x02#x", WireFault::Short),
    (b"\x04\0", WireFault::Short),
    (b"\x04\0\x03bo", WireFault::Short),
    (b"\x0d\0\x02#x\x01", WireFault::Short),
    (b"\x0e\0\x06WHO", WireFault::Short),
];

fn is_channel(alloc: Global, bytes: &[u8]) -> Result<bool, Fail> {
    let name = name(alloc, bytes)?;
    Ok(ChannelName::from_name(name).is_some())
}

/// Whether the copy of a channel's name is of these bytes.
fn is_copied_channel(alloc: Global, bytes: &[u8]) -> Result<bool, Fail> {
    let copy = channel(alloc, bytes)?.copy(alloc)?;
    Ok(copy.name().as_bytes() == bytes)
}

#[test]
fn an_action_has_one_spelling(rt: HostRuntime) -> Result<(), Fail> {
    let alloc = rt.alloc();
    assert!(rt; are_read(alloc)?);
    assert!(rt; is_made(alloc, Action::Attach(None), b"\x01")?);
    assert!(rt;
        is_made(
            alloc,
            Action::Attach(Some(name(alloc, b"a")?)),
            b"\x0f\0\x01a"
        )?
    );
    assert!(rt; is_made(alloc, Action::Leave, b"\x02")?);
    assert!(rt; is_made(alloc, Action::ClearChannels, b"\x0a")?);
    assert!(rt; is_made(alloc, Action::ClearQueries, b"\x0b")?);
    assert!(rt; is_made(alloc, Action::ClearAll, b"\x0c")?);
    assert!(rt; is_made(alloc, notice(alloc)?, b"\x03\x01\0\x03bob\0\x02hi")?);
    let set = Action::SetBuffer(name(alloc, b"#x")?, BufferSize::new(500));
    assert!(rt; is_made(alloc, set, b"\x0d\0\x02#x\x01\xf4")?);
    assert!(rt; is_made(alloc, Action::Join(channel(alloc, b"#x")?), b"\x04\0\x02#x")?);
    for (bytes, want) in FAULTS {
        assert!(rt; fault_of::<Action>(alloc, bytes) == Some(*want));
    }
    assert!(rt; !is_channel(alloc, b"bob")? && is_copied_channel(alloc, b"#x")?);
    assert_eq!(rt; BufferSize::new(65535).lines(), 65535);
    Ok(())
}
