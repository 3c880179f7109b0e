//! Which PASS lets a client in, and by which name, by examples.
use crate::buffer::gate_told::Told;
use crate::buffer::heard::Client;
use crate::made::{check_bytes, name};
use client_gate::{ClientGate, Fed};
use std::alloc::{AllocError, Global};
use std::process::Abort;
use std::test::Fail;

/// A password and the lines that a client sends before NICK and USER, and what comes of these.
enum Entry<'a> {
    /// The client is let in, and its first request has these bytes.
    LetsIn(&'a [u8], &'a [u8], &'a [u8]),
    Refuses(&'a [u8], &'a [u8]),
}

const ENTRIES: &[Entry<'static>] = &[
    // the password, which has no name, even where it could be cut
    Entry::LetsIn(b"pw", b"PASS pw\r\n", b"\x01"),
    Entry::LetsIn(b"x@a:pw", b"PASS x@a:pw\r\n", b"\x01"),
    Entry::Refuses(b"x@a:pw", b"PASS me@a:pw\r\n"),
    Entry::Refuses(b"x@a:pw", b"PASS @a:pw\r\n"),
    // a name, with anything before it
    Entry::LetsIn(b"pw", b"PASS me@a:pw\r\n", b"\x0f\0\x01a"),
    Entry::LetsIn(b"pw", b"PASS @a:pw\r\n", b"\x0f\0\x01a"),
    Entry::LetsIn(b"pw", b"PASS a:b@c:pw\r\n", b"\x0f\0\x01c"),
    Entry::LetsIn(b"pw", b"PASS me@a@b:pw\r\n", b"\x0f\0\x03a@b"),
    // a password with a `:` of its own
    Entry::LetsIn(b"b:pw", b"PASS me@a:b:pw\r\n", b"\x0f\0\x01a"),
    Entry::Refuses(b"pw", b"PASS me@a:b:pw\r\n"),
    // no `:` behind the `@`, and a wrong password
    Entry::Refuses(b"pw", b"PASS me@apw\r\n"),
    Entry::Refuses(b"pw", b"PASS x@phone:wrong\r\n"),
    // what is a name, and what is none
    Entry::LetsIn(b"pw", b"PASS me@#d:pw\r\n", b"\x0f\0\x02#d"),
    Entry::Refuses(b"pw", b"PASS me@:pw\r\n"),
    Entry::Refuses(b"pw", b"PASS me@a,b:pw\r\n"),
    Entry::LetsIn(
        b"pw",
        b"PASS me@iiiiiiiiiiiiiiiiiiiiiiiiiiiiiiiiiiiiiiiiiiiiiiiiiiiiiiiiiiiiiiii:pw\r\n",
        b"\x0f\0\x40iiiiiiiiiiiiiiiiiiiiiiiiiiiiiiiiiiiiiiiiiiiiiiiiiiiiiiiiiiiiiiii",
    ),
    Entry::Refuses(
        b"pw",
        b"PASS me@iiiiiiiiiiiiiiiiiiiiiiiiiiiiiiiiiiiiiiiiiiiiiiiiiiiiiiiiiiiiiiiii:pw\r\n",
    ),
    // the last of two counts
    Entry::LetsIn(
        b"pw",
        b"PASS me@a:b:pw\r\nPASS me@#d:pw\r\n",
        b"\x0f\0\x02#d",
    ),
    Entry::Refuses(b"pw", b"PASS pw\r\nPASS me@apw\r\n"),
];

const REST: &[u8] = b"NICK n\r\nUSER u 0 * :r\r\n";

const WELCOME: &[u8] = b":bouncer.local 001 me :Welcome to the bouncer\r\n";

const INCORRECT: &[u8] = b":bouncer.local 464 * :Password incorrect\r\n";

/// What a new gate with this password and the nick `me` answers to these lines, and then to NICK and USER.
fn told(alloc: Global, password: &[u8], lines: &[u8]) -> Result<Told, Fail> {
    let password = Vec::from_slice(alloc, password)?;
    let mut gate = ClientGate::new(alloc, Client::Own.origin(), password, name(alloc, b"me")?)?;
    let mut told = Told::new(alloc);
    for bytes in [lines, REST] {
        let fed = fed(&mut gate, bytes)?;
        told.add(alloc, &fed)?;
    }
    Ok(told)
}

fn fed(gate: &mut ClientGate, bytes: &[u8]) -> Result<Fed, AllocError> {
    gate.feed(bytes)
}

/// The first request, with this action, as it is told.
fn first(alloc: Global, action: &[u8]) -> Result<Vec<u8>, AllocError> {
    let mut line = Vec::from_slice(alloc, b"1 ")?;
    line.extend_from_slice(action)?;
    line.push(b'\n')?;
    Ok(line)
}

fn check(rt: &impl Abort, alloc: Global, entry: &Entry<'_>) -> Result<(), Fail> {
    match entry {
        Entry::LetsIn(password, lines, action) => {
            let told = told(alloc, password, lines)?;
            check_bytes(rt, &told.requests, &first(alloc, action)?);
            check_bytes(rt, &told.reply, WELCOME);
            assert!(rt; !told.close);
        }
        Entry::Refuses(password, lines) => {
            let told = told(alloc, password, lines)?;
            check_bytes(rt, &told.requests, b"");
            check_bytes(rt, &told.reply, INCORRECT);
            assert!(rt; told.close);
        }
    }
    Ok(())
}

#[test]
fn a_pass_names_its_client(rt: HostRuntime) -> Result<(), Fail> {
    for entry in ENTRIES {
        check(&rt, rt.alloc(), entry)?;
    }
    Ok(())
}
