//! What a gate does, by examples.
use crate::buffer::gate_told::{Told, tell_request};
use crate::buffer::heard::{Client, Heard};
use crate::made::{check_bytes, name};
use client_gate::{ClientGate, Fed, GateEffect, Request};
use std::alloc::{AllocError, Global};
use std::process::Abort;
use std::test::Fail;

/// What a gate is given, and what it has to answer.
#[derive(Clone, Copy)]
enum Step<'a> {
    /// These bytes come, whole.
    Feed(&'a [u8]),
    /// These bytes come, one by one.
    FeedBytes(&'a [u8]),
    Hear(Heard<'a>),
    /// So far there was a line for each request, with its number and the bytes of its action; the bytes
    /// that were written; and whether a call closed. From then on that is forgotten.
    Told(&'a [u8], &'a [u8], bool),
    /// The requests so far.
    Requests(&'a [u8]),
    /// Whether a call closed so far.
    IsClosed(bool),
    /// So many requests wait for their answers.
    Waiting(usize),
    /// What is requested where the connection is gone.
    End(&'a [u8]),
}

/// The gate of the client 1.1.1, whose password is `pw` and whose nick is `me`.
fn new_gate(alloc: Global) -> Result<ClientGate, Fail> {
    let password = Vec::from_slice(alloc, b"pw")?;
    Ok(ClientGate::new(alloc, Client::Own.origin(), password, name(alloc, b"me")?)?)
}

/// All of this happens to a new gate.
fn follow(rt: &impl Abort, alloc: Global, story: &[Step<'_>]) -> Result<(), Fail> {
    let mut gate = new_gate(alloc)?;
    let mut told = Told::new(alloc);
    for step in story {
        follow_one(rt, alloc, &mut gate, &mut told, step)?;
    }
    Ok(())
}

fn follow_one(
    rt: &impl Abort,
    alloc: Global,
    gate: &mut ClientGate,
    told: &mut Told,
    step: &Step<'_>,
) -> Result<(), Fail> {
    match step {
        Step::Feed(bytes) => feed(alloc, gate, told, bytes),
        Step::FeedBytes(bytes) => feed_bytes(alloc, gate, told, bytes),
        Step::Hear(heard) => hear(alloc, gate, told, heard),
        Step::Told(requests, reply, close) => {
            check_told(rt, told, requests, reply, *close);
            told.forget();
            Ok(())
        }
        Step::Requests(wanted) => {
            check_bytes(rt, &told.requests, wanted);
            Ok(())
        }
        Step::IsClosed(wanted) => {
            assert!(rt; told.close == *wanted);
            Ok(())
        }
        Step::Waiting(wanted) => check_waiting(rt, gate, *wanted),
        Step::End(wanted) => check_end(rt, alloc, gate, wanted),
    }
}

fn give(gate: &mut ClientGate, bytes: &[u8]) -> Result<Fed, AllocError> {
    gate.feed(bytes)
}

fn feed(alloc: Global, gate: &mut ClientGate, told: &mut Told, bytes: &[u8]) -> Result<(), Fail> {
    let fed = give(gate, bytes)?;
    Ok(told.add(alloc, &fed)?)
}

fn feed_bytes(
    alloc: Global,
    gate: &mut ClientGate,
    told: &mut Told,
    bytes: &[u8],
) -> Result<(), Fail> {
    for byte in bytes {
        feed(alloc, gate, told, &[*byte])?;
    }
    Ok(())
}

fn hear(
    alloc: Global,
    gate: &mut ClientGate,
    told: &mut Told,
    heard: &Heard<'_>,
) -> Result<(), Fail> {
    let effect = heard.effect(alloc)?;
    let fed = answered(gate, effect)?;
    Ok(told.add(alloc, &fed)?)
}

fn answered(gate: &mut ClientGate, effect: GateEffect) -> Result<Fed, AllocError> {
    gate.on_effect(&effect)
}

fn check_told(rt: &impl Abort, told: &Told, requests: &[u8], reply: &[u8], close: bool) {
    check_bytes(rt, &told.requests, requests);
    check_bytes(rt, &told.reply, reply);
    assert!(rt; told.close == close);
}

/// How many requests wait for their answers.
fn waiting(gate: &ClientGate) -> Result<usize, AllocError> {
    let again = gate.again()?;
    Ok(again.len())
}

fn check_waiting(rt: &impl Abort, gate: &ClientGate, wanted: usize) -> Result<(), Fail> {
    let count = waiting(gate)?;
    assert!(rt; count == wanted);
    Ok(())
}

fn check_end(
    rt: &impl Abort,
    alloc: Global,
    gate: &mut ClientGate,
    wanted: &[u8],
) -> Result<(), Fail> {
    let end = told_end(alloc, gate)?;
    check_bytes(rt, &end, wanted);
    Ok(())
}

fn ended(gate: &mut ClientGate) -> Option<Request> {
    gate.end()
}

/// What `end` answers, as a line.
fn told_end(alloc: Global, gate: &mut ClientGate) -> Result<Vec<u8>, AllocError> {
    let mut out = Vec::new(alloc);
    if let Some(request) = &ended(gate) {
        tell_request(alloc, &mut out, request)?;
    }
    Ok(out)
}

const REGISTERED: &[u8] = b":bouncer.local 001 me :Welcome to the bouncer\r\n";

const REGISTER: &[u8] = b"PASS pw\r\nNICK n\r\nUSER u 0 * :r\r\n";

/// A client attaches, joins `#x` and what is no channel, detaches `#x` and pings.
const ASKS: &[u8] =
    b"PASS pw\r\nNICK n\r\nUSER u 0 * :r\r\nJOIN #x,y\r\nPRIVMSG *status :detach #x\r\nPING t\r\n";

const ASKED: Step<'static> = Step::Told(
    b"1 \x01\n2 \x04\0\x02#x\n3 \x06\0\x02#x\n",
    b":bouncer.local 001 me :Welcome to the bouncer\r\n:bouncer.local 403 me y :No such channel\r\n:bouncer.local PONG bouncer.local t\r\n",
    false,
);

/// A client attaches, asks and leaves.
const LEAVES: &[Step<'static>] = &[
    Step::Feed(ASKS),
    ASKED,
    Step::End(b"4 \x02\n"),
    Step::End(b""),
];

const LEAVES_BYTE_BY_BYTE: &[Step<'static>] = &[
    Step::FeedBytes(ASKS),
    ASKED,
    Step::End(b"4 \x02\n"),
    Step::End(b""),
];

const LACKS_PASSWORD: &[u8] = b"JOIN #x\r\nNICK n\r\nUSER u 0 * r\r\n";

const REFUSED: Step<'static> = Step::Told(
    b"",
    b":bouncer.local 451 * :You have not registered\r\n:bouncer.local 464 * :Password incorrect\r\n",
    true,
);

/// A client without the password is refused.
const NO_PASSWORD: &[Step<'static>] = &[Step::Feed(LACKS_PASSWORD), REFUSED, Step::End(b"")];

const NO_PASSWORD_BYTE_BY_BYTE: &[Step<'static>] = &[
    Step::FeedBytes(LACKS_PASSWORD),
    REFUSED,
    Step::End(b""),
];

const LINE: &[u8] = b":a!b@c PRIVMSG #x :hi";

/// Effects are told to their client alone.
const ALONE: &[Step<'static>] = &[
    Step::Feed(REGISTER),
    Step::Feed(b"WHO #x\r\n"),
    Step::Told(b"1 \x01\n2 \x0e\0\x06WHO #x\n", REGISTERED, false),
    Step::Hear(Heard::Show(Client::Other, LINE)),
    Step::Hear(Heard::Busy(Client::Other)),
    Step::Hear(Heard::Gap(Client::Other, 1)),
    Step::Hear(Heard::Show(Client::Own, LINE)),
    Step::Hear(Heard::Busy(Client::Own)),
    Step::Hear(Heard::Gap(Client::Own, 1)),
    Step::Told(
        b"",
        b":a!b@c PRIVMSG #x :hi\r\n:*status!bouncer@local PRIVMSG me :Busy, not sent.\r\n",
        false,
    ),
    Step::Hear(Heard::Done(Client::Other, 2)),
    Step::Waiting(2),
    Step::Hear(Heard::Repeat(Client::Own, 1)),
    Step::Waiting(1),
    Step::Hear(Heard::Close(Client::Other)),
    Step::IsClosed(false),
    Step::Hear(Heard::Close(Client::Own)),
    Step::IsClosed(true),
    Step::Feed(b"WHO #x\r\n"),
    Step::Requests(b""),
    Step::End(b"3 \x02\n"),
];

const STORIES: &[&[Step<'static>]] = &[
    LEAVES,
    LEAVES_BYTE_BY_BYTE,
    NO_PASSWORD,
    NO_PASSWORD_BYTE_BY_BYTE,
    ALONE,
];

#[test]
fn a_gate_serves_its_client_alone(rt: HostRuntime) -> Result<(), Fail> {
    for story in STORIES {
        follow(&rt, rt.alloc(), story)?;
    }
    Ok(())
}
