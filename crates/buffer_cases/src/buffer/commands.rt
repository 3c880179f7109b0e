//! Commands as bytes, and the lines that they hold, by examples.
use crate::made::{fault_of, filled_to, is_copied_so, is_spelled_again, name, taken, text};
use buffer_commands::{Action, Command, WireLine};
use irc_line::Line;
use std::alloc::{AllocError, Global};
use std::test::Fail;
use wire_bytes::{Moment, Number, Origin, WireFault};

fn kind(command: &Command) -> &'static str {
    match command {
        Command::Client(_, _, _) => "client",
        Command::Upstream(_, _) => "upstream",
        Command::NodeGone(_, _) => "node gone",
        Command::Up => "up",
        Command::Down => "down",
    }
}

fn is_of_kind(alloc: Global, bytes: &[u8], want: &str) -> Result<bool, WireFault> {
    let command = taken::<Command>(alloc, bytes)?;
    Ok(kind(&command) == want)
}

/// The client 1.2.3 leaves, 1,700,000,000 seconds after 1970.
const LEAVES: &[u8] = b"\x01\x01\0\0\0\0\0\0\0\x02\0\0\0\0\0\0\0\x03\0\0\0\0\x65\x53\xf1\0\x02";

/// The runs of node 2 below its fifth are gone.
const GONE: &[u8] = b"\x03\x02\0\0\0\0\0\0\0\x05";

/// Bytes and the kind of the command that they are.
const SPELLED: &[(&[u8], &str)] = &[
    (LEAVES, "client"),
    (
        b"\x02\0\0\0\0\x65\x53\xf1\0\0\x10:s 353 me = #x a",
        "upstream",
    ),
    (GONE, "node gone"),
    (b"\x04", "up"),
    (b"\x05", "down"),
];

/// Whether the bytes are commands of these kinds, all of them, and each is spelled so, and its copy too.
fn are_read(alloc: Global) -> Result<bool, WireFault> {
    for (bytes, want) in SPELLED {
        if !is_of_kind(alloc, bytes, want)? || !is_spelled_again::<Command>(alloc, bytes, bytes)? {
            return Ok(false);
        }
    }
    Ok(true)
}

/// Whether a command that was made is spelled so, and its copy too.
fn is_made(alloc: Global, command: Command, bytes: &[u8]) -> Result<bool, AllocError> {
    command.fits();
    is_copied_so(alloc, &command, bytes)
}

/// Bytes that are no command, and what is wrong with them.
const FAULTS: &[(&[u8], WireFault)] = &[
    (b"", WireFault::Short),
    (b"\0", WireFault::Bad(0)),
    (b"\x06", WireFault::Bad(0)),
    (b"\x01\x08", WireFault::Bad(1)),
    (b"\x02\0\0\0\0\x65\x53\xf1\0\0\x04ping", WireFault::Bad(9)),
    (b"\x02\0\0\0\0\x65\x53\xf1\0\0\x04PIN", WireFault::Short),
    (b"\x03\x02\x10\0\0\0\0\0\0\x01", WireFault::Bad(2)),
    (b"\x03\x02\0\0", WireFault::Short),
];

/// A line of so many bytes.
fn line_of(alloc: Global, len: usize) -> Result<Line, Fail> {
    let bytes = filled_to(alloc, b"PING ", len, b"")?;
    Ok(Line::parse(alloc, &bytes)?)
}

/// A message of more than 511 bytes.
fn long_message(alloc: Global) -> Result<Line, Fail> {
    let letters = text(alloc, &filled_to(alloc, b"", 510, b"")?)?;
    Ok(Line::message(alloc, None, b"PRIVMSG", &name(alloc, b"#x")?, &letters)?)
}

fn is_wire_line(line: Line) -> bool {
    WireLine::from_line(line).is_some()
}

#[test]
fn a_command_has_one_spelling(rt: HostRuntime) -> Result<(), Fail> {
    let alloc = rt.alloc();
    assert!(rt; are_read(alloc)?);
    let at = Moment::new(1_700_000_000);
    let leaves = Command::Client(Origin::new(1, 2, 3), at, Action::Leave);
    assert!(rt; is_made(alloc, leaves, LEAVES)?);
    assert!(rt; is_made(alloc, Command::NodeGone(2, Number::new(5)), GONE)?);
    for (bytes, want) in FAULTS {
        assert!(rt; fault_of::<Command>(alloc, bytes) == Some(*want));
    }
    assert!(rt; !is_wire_line(long_message(alloc)?));
    assert!(rt; is_wire_line(line_of(alloc, 511)?));
    Ok(())
}
