//! A client at its gate.
use crate::walks::marks::mark;
use client_gate::{ClientGate, Fed, Request};
use irc_line::Name;
use recorder::{push_body, push_number};
use std::alloc::{AllocError, Global};
use std::test::Fail;
use wire_bytes::Origin;

/// What the client sends, line by line.
const LINES: &[&[u8]] = &[
    b"PASS pw\r\n",
    b"NICK n\r\n",
    b"USER u 0 * :r\r\n",
    b"JOIN #x,y\r\n",
    b"PRIVMSG *status :detach #x\r\n",
    b"PING t\r\n",
];

/// Stands where a call was refused memory.
const MEMORY: &[u8] = b"memory\n";

/// A client registers, joins a channel, detaches from it, and is gone: what it requests and is
/// told, line by line.
pub fn walk_gate(alloc: Global) -> Result<Vec<u8>, Fail> {
    let Some(nick) = Name::from_bytes(Vec::from_slice(alloc, b"me")?) else {
        return Err(Fail::from("no such name"));
    };
    let password = Vec::from_slice(alloc, b"pw")?;
    let mut out = Vec::new(alloc);
    mark(alloc);
    let made = ClientGate::new(alloc, Origin::new(1, 1, 1), password, nick);
    mark(alloc);
    match made {
        Ok(gate) => push_talk(alloc, &mut out, gate)?,
        Err(_) => out.extend_from_slice(MEMORY)?,
    }
    Ok(out)
}

/// Appends all that comes of a client's lines, which it sends also once one was refused, and of the
/// end of its connection, twice.
fn push_talk(alloc: Global, out: &mut Vec<u8>, gate: ClientGate) -> Result<(), AllocError> {
    let mut gate = gate;
    for line in LINES {
        push_feed(alloc, out, &mut gate, line)?;
    }
    push_waiting(alloc, out, &gate)?;
    push_end(alloc, out, gate.end())?;
    push_end(alloc, out, gate.end())
}

/// Appends what comes of a line.
fn push_feed(
    alloc: Global,
    out: &mut Vec<u8>,
    gate: &mut ClientGate,
    line: &[u8],
) -> Result<(), AllocError> {
    mark(alloc);
    let fed = gate.feed(line);
    mark(alloc);
    let Ok(
        Fed {
            requests,
            reply,
            ..
        },
    ) = fed
    else {
        return out.extend_from_slice(MEMORY);
    };
    push_requests(alloc, out, b"asks ", &requests)?;
    out.extend_from_slice(&reply)
}

/// Appends the requests that wait, which are asked for again where that is refused.
fn push_waiting(alloc: Global, out: &mut Vec<u8>, gate: &ClientGate) -> Result<(), AllocError> {
    mark(alloc);
    let waiting = gate.again();
    mark(alloc);
    if let Ok(waiting) = waiting {
        return push_requests(alloc, out, b"waits ", &waiting);
    }
    out.extend_from_slice(MEMORY)?;
    push_requests(alloc, out, b"waits ", &gate.again()?)
}

/// Appends what a gate asks for when its connection is gone.
fn push_end(alloc: Global, out: &mut Vec<u8>, last: Option<Request>) -> Result<(), AllocError> {
    match last {
        Some(request) => push_request(alloc, out, b"ends ", &request),
        None => out.extend_from_slice(b"ends\n"),
    }
}

/// Appends requests, each as a line behind a word.
fn push_requests(
    alloc: Global,
    out: &mut Vec<u8>,
    word: &[u8],
    requests: &[Request],
) -> Result<(), AllocError> {
    for request in requests {
        push_request(alloc, out, word, request)?;
    }
    Ok(())
}

/// Appends the number and the action of a request as a line, behind a word.
fn push_request(
    alloc: Global,
    out: &mut Vec<u8>,
    word: &[u8],
    request: &Request,
) -> Result<(), AllocError> {
    out.extend_from_slice(word)?;
    push_number(out, request.number.value())?;
    out.extend_from_slice(b" ")?;
    request.action.fits();
    push_body(alloc, out, &request.action)?;
    out.extend_from_slice(b"\n")
}
