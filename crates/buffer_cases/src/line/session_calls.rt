//! Sessions call by call.
use crate::line::sessions::{Told, new_uplink};
use std::alloc::{AllocError, Global};
use std::process::Abort;
use std::test::Fail;
use uplink::Uplink;

/// A call, with what it gives as words and what is written.
#[derive(Clone, Copy)]
enum Call {
    Feed(&'static str, &'static str, &'static str),
    End(&'static str),
}

/// Whether a call brings what it says.
fn is_as_told(alloc: Global, uplink: &mut Uplink, call: &Call) -> Result<bool, AllocError> {
    let mut told = Told::nothing(alloc);
    match call {
        Call::Feed(bytes, inputs, reply) => {
            told.feed(uplink, bytes.as_bytes())?;
            Ok(told.is(inputs, reply))
        }
        Call::End(inputs) => {
            told.end(uplink)?;
            Ok(told.is(inputs, ""))
        }
    }
}

/// Makes calls, and compares what each brings.
fn compare_all(
    rt: &impl Abort,
    alloc: Global,
    uplink: &mut Uplink,
    calls: &[Call],
) -> Result<(), Fail> {
    for call in calls {
        assert!(rt; is_as_told(alloc, uplink, call)?);
    }
    Ok(())
}

/// Makes the calls at a new uplink, and compares what each brings.
fn compare(rt: &impl Abort, alloc: Global, nick: &str, calls: &[Call]) -> Result<(), Fail> {
    let mut uplink = new_uplink(alloc, nick)?;
    compare_all(rt, alloc, &mut uplink, calls)
}

/// The nick, of 62 bytes, is in use.
const NICK_IN_USE: &[Call] = &[
    Call::Feed("PING a b\r\n", "", "PONG a\r\n"),
    Call::Feed(
        ":s 433\n:s NOTICE * :hi\nERROR :Closing\r\n:s 001 me\n",
        "opened\nheard :s 001 me\n",
        "NICK nnnnnnnnnnnnnnnnnnnnnnnnnnnnnnnnnnnnnnnnnnnnnnnnnnnnnnnnnnnnnn_\r\n",
    ),
    Call::Feed(":s 433 * me :I", "", ""),
    Call::Feed("n use\nPIN", "heard :s 433 * me :In use\n", ""),
    Call::Feed("G :k\n:", "", "PONG k\r\n"),
    Call::Feed(
        "me!u@h NICK you\r\n:s 001 me :Hello\r\n",
        "heard :me!u@h NICK you\nheard :s 001 me Hello\n",
        "",
    ),
    Call::End("closed\n"),
    Call::End(""),
    Call::End(""),
];

/// Bytes come after the end.
const AFTER_THE_END: &[Call] = &[
    Call::Feed(":s 001 me", "", ""),
    Call::Feed(
        " :Hello\r\n:s 433\n",
        "opened\nheard :s 001 me Hello\nheard :s 433\n",
        "",
    ),
    Call::End("closed\n"),
    Call::End(""),
    Call::Feed("PONG x\r\nPONG x\r\nPONG x\r\n", "", ""),
    Call::End(""),
];

/// Lines are cut at any byte.
const CUT_ANYWHERE: &[Call] = &[
    Call::Feed("PING", "", ""),
    Call::Feed("\n:me!u@", "", ""),
    Call::Feed("h NICK you\n", "", ""),
    Call::Feed(
        "PING a b\n:s PING z\r\n:s 001 m",
        "",
        "PONG a\r\nPONG z\r\n",
    ),
    Call::Feed("e", "", ""),
    Call::Feed(
        " :Hello\r\nERROR :Clos",
        "opened\nheard :s 001 me Hello\n",
        "",
    ),
    Call::Feed("ing\n", "heard ERROR Closing\n", ""),
    Call::Feed(":me!u@h N", "", ""),
    Call::Feed("ICK you\r\n:s PING z", "heard :me!u@h NICK you\n", ""),
    Call::Feed("", "", ""),
    Call::Feed("\nPON", "", "PONG z\r\n"),
    Call::Feed("G x\r\n", "heard PONG x\n", ""),
    Call::Feed(
        ":s 001 me :Hello\r\n:s 002 me :x\n:s PING z\n",
        "heard :s 001 me Hello\nheard :s 002 me x\n",
        "PONG z\r\n",
    ),
    Call::End("closed\n"),
];

/// What is fed before the end is nothing, half a welcome, or a welcome and half of another. Behind the end comes what
/// would have opened the session.
const ENDED: &[Call] = &[
    Call::Feed("", "", ""),
    Call::End("closed\n"),
    Call::Feed("1 me :Hello\nPING :k\n433\n", "", ""),
    Call::End(""),
];

const ENDED_IN_A_WELCOME: &[Call] = &[
    Call::Feed(":s NOTICE * :hi\n:s 00", "", ""),
    Call::End("closed\n"),
    Call::Feed("1 me :Hello\nPING :k\n433\n", "", ""),
    Call::End(""),
];

const ENDED_WHEN_OPEN: &[Call] = &[
    Call::Feed(
        ":s 001 me :Hello\n:s 00",
        "opened\nheard :s 001 me Hello\n",
        "",
    ),
    Call::End("closed\n"),
    Call::Feed("1 me :Hello\nPING :k\n433\n", "", ""),
    Call::End(""),
];

/// The calls of sessions of nick `me`.
const SESSIONS: &[&[Call]] = &[
    AFTER_THE_END,
    CUT_ANYWHERE,
    ENDED,
    ENDED_IN_A_WELCOME,
    ENDED_WHEN_OPEN,
];

#[test]
fn each_call_of_a_session_brings_its_own(rt: HostRuntime) -> Result<(), Fail> {
    let nick = "nnnnnnnnnnnnnnnnnnnnnnnnnnnnnnnnnnnnnnnnnnnnnnnnnnnnnnnnnnnnnn";
    compare(&rt, rt.alloc(), nick, NICK_IN_USE)?;
    for calls in SESSIONS {
        compare(&rt, rt.alloc(), "me", calls)?;
    }
    Ok(())
}
