//! Sessions by examples.
use crate::made::{name, text};
use irc_line::{Line, Name, Text};
use std::alloc::{AllocError, Global};
use std::test::Fail;
use uplink::{Uplink, UplinkInput};

/// A new uplink, and what it writes first.
fn began(
    alloc: Global,
    nick: Name,
    password: Option<&Text>,
) -> Result<(Uplink, Vec<u8>), AllocError> {
    Uplink::new(alloc, nick, password)
}

/// An uplink without a password that was just made.
pub fn new_uplink(alloc: Global, nick: &str) -> Result<Uplink, Fail> {
    let (uplink, _bytes) = began(alloc, name(alloc, nick.as_bytes())?, None)?;
    Ok(uplink)
}

/// Adds an input as words, and a LF.
fn tell_input(out: &mut Vec<u8>, input: &UplinkInput) -> Result<(), AllocError> {
    match input {
        UplinkInput::Opened => out.extend_from_slice(b"opened\n"),
        UplinkInput::Heard(line) => tell_heard(out, line),
        UplinkInput::Closed => out.extend_from_slice(b"closed\n"),
    }
}

fn tell_heard(out: &mut Vec<u8>, line: &Line) -> Result<(), AllocError> {
    out.extend_from_slice(b"heard ")?;
    line.write_to(out)?;
    out.push(b'\n')?;
    Ok(())
}

/// Adds each input so.
fn tell_inputs(out: &mut Vec<u8>, inputs: &[UplinkInput]) -> Result<(), AllocError> {
    for input in inputs {
        tell_input(out, input)?;
    }
    Ok(())
}

/// What was given as words, and what was written.
#[derive(Drop)]
pub struct Told {
    pub inputs: Vec<u8>,
    pub reply: Vec<u8>,
}

impl Told {
    pub fn nothing(alloc: Global) -> Told {
        Told {
            inputs: Vec::new(alloc),
            reply: Vec::new(alloc),
        }
    }

    /// Whether these are the inputs and the bytes.
    pub fn is(&self, inputs: &str, reply: &str) -> bool {
        self.inputs.as_slice() == inputs.as_bytes() && self.reply.as_slice() == reply.as_bytes()
    }

    /// Adds what bytes bring that an uplink is fed.
    pub fn feed(&mut self, uplink: &mut Uplink, bytes: &[u8]) -> Result<(), AllocError> {
        let passed = uplink.feed(bytes)?;
        tell_inputs(&mut self.inputs, passed.inputs.as_slice())?;
        self.reply.extend_from_slice(passed.reply.as_slice())
    }

    /// Adds what an uplink's end brings.
    pub fn end(&mut self, uplink: &mut Uplink) -> Result<(), AllocError> {
        match uplink.end() {
            Some(input) => tell_input(&mut self.inputs, &input),
            None => Ok(()),
        }
    }
}

/// Adds what bytes bring that an uplink is fed in pieces of this length.
fn feed_pieces(
    uplink: &mut Uplink,
    told: &mut Told,
    bytes: &[u8],
    len: usize,
) -> Result<(), AllocError> {
    let mut rest = bytes;
    for _ in 0..bytes.len() {
        let (piece, behind) = rest.split_at(rest.len().min(len));
        told.feed(uplink, piece)?;
        rest = behind;
    }
    Ok(())
}

/// What is told of bytes that a new uplink is fed in pieces of this length.
fn told_in_pieces(alloc: Global, nick: &str, bytes: &str, len: usize) -> Result<Told, Fail> {
    let mut uplink = new_uplink(alloc, nick)?;
    let mut told = Told::nothing(alloc);
    feed_pieces(&mut uplink, &mut told, bytes.as_bytes(), len)?;
    Ok(told)
}

/// Bytes that a new uplink of this nick is fed, with all that is given as words and what is written.
#[derive(Clone, Copy)]
struct Session {
    nick: &'static str,
    bytes: &'static str,
    inputs: &'static str,
    reply: &'static str,
}

/// Whether a session goes so where its bytes come in pieces of this length.
fn goes_so(alloc: Global, session: &Session, len: usize) -> Result<bool, Fail> {
    let told = told_in_pieces(alloc, session.nick, session.bytes, len)?;
    Ok(told.is(session.inputs, session.reply))
}

const OPENED: Session = Session {
    nick: "me",
    bytes: ":s NOTICE * :hi\r\nPING :k\r\n:s 001 me :Hello\r\n:a!b@c PRIVMSG #x :hi\r\n",
    inputs: "opened\nheard :s 001 me Hello\nheard :a!b@c PRIVMSG #x :hi\n",
    reply: "PONG k\r\n",
};

/// A server that says of each nick that it is in use, until it welcomes.
const IN_USE: &str =
    ":s 433 * me :In use\r\n:s 433 * me_ :In use\n433\r\n:s 001 me :Hello\r\n433\n";

/// It is asked for the nick with one more underscore each time.
const NICKS: Session = Session {
    nick: "me",
    bytes: IN_USE,
    inputs: "opened\nheard :s 001 me Hello\nheard 433\n",
    reply: "NICK me_\r\nNICK me__\r\nNICK me___\r\n",
};

/// A nick has at most 64 bytes.
const LONG_NICKS: Session = Session {
    nick: "n234567890123456789012345678901234567890123456789012345678901_",
    bytes: IN_USE,
    inputs: "opened\nheard :s 001 me Hello\nheard 433\n",
    reply: "NICK n234567890123456789012345678901234567890123456789012345678901__\r\n\
        NICK n234567890123456789012345678901234567890123456789012345678901___\r\n",
};

/// Whether an uplink of nick `me` with this password, or none, writes these bytes first.
fn is_first(alloc: Global, password: Option<&Text>, want: &str) -> Result<bool, Fail> {
    let (_uplink, first) = began(alloc, name(alloc, b"me")?, password)?;
    Ok(first.as_slice() == want.as_bytes())
}

/// Whether an uplink of nick `me` with a password writes these bytes first.
fn is_first_with(alloc: Global, password: &str, want: &str) -> Result<bool, Fail> {
    is_first(alloc, Some(&text(alloc, password.as_bytes())?), want)
}

/// The line that opens a session and another, with all that is given as words and what is written.
const LINES: &[(&str, &str, &str)] = &[
    (
        "001\n:s 001 me :Hello\r\n",
        "opened\nheard 001\nheard :s 001 me Hello\n",
        "",
    ),
    ("001\nping a b\r\n", "opened\nheard 001\n", "PONG a\r\n"),
    (
        "001\n:s PING ::a\r\n",
        "opened\nheard 001\n",
        "PONG ::a\r\n",
    ),
    ("001\nPING\r\n", "opened\nheard 001\n", ""),
    ("001\nPONG x\r\n", "opened\nheard 001\nheard PONG x\n", ""),
    (
        "001\n:s 433 * me :In use\r\n",
        "opened\nheard 001\nheard :s 433 * me :In use\n",
        "",
    ),
    (
        "001\nERROR :Closing Link\r\n",
        "opened\nheard 001\nheard ERROR :Closing Link\n",
        "",
    ),
    ("001\n\r\n", "opened\nheard 001\n", ""),
    ("001\n:s\r\n", "opened\nheard 001\n", ""),
    ("001\nPRIVMSG \r #x\r\n", "opened\nheard 001\n", ""),
];

/// Whether an open session hears all but pings and what is no line.
fn are_heard(alloc: Global) -> Result<bool, Fail> {
    for (bytes, inputs, reply) in LINES {
        let session = Session {
            nick: "me",
            bytes: *bytes,
            inputs: *inputs,
            reply: *reply,
        };
        if !goes_so(alloc, &session, 4)? {
            return Ok(false);
        }
    }
    Ok(true)
}

#[test]
fn a_session_is_opened_however_its_bytes_are_cut(rt: HostRuntime) -> Result<(), Fail> {
    let alloc = rt.alloc();
    for len in 1..OPENED.bytes.len() + 1 {
        assert!(rt; goes_so(alloc, &OPENED, len)?);
    }
    assert!(rt; goes_so(alloc, &NICKS, 7)?);
    assert!(rt; goes_so(alloc, &LONG_NICKS, 1000)?);
    assert!(rt; are_heard(alloc)?);
    assert!(rt; is_first(alloc, None, "NICK me\r\nUSER me 0 * me\r\n")?);
    let secret = "PASS secret\r\nNICK me\r\nUSER me 0 * me\r\n";
    assert!(rt; is_first_with(alloc, "secret", secret)?);
    let two = "PASS :two words\r\nNICK me\r\nUSER me 0 * me\r\n";
    assert!(rt; is_first_with(alloc, "two words", two)?);
    Ok(())
}
