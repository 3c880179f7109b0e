//! What a tower answers, by examples, whose bodies are given by their bytes.
use crate::made::check_bytes;
use crate::tower::bodies::{ATTACH, CLAIM, HEARD, OPENED, SAY, SHUT, say, taken};
use crate::tower::told::{Told, Word, come_all};
use bouncer_tower::Tower;
use buffer_commands::Setup;
use machine_laws::Hosted;
use std::alloc::Global;
use std::test::Fail;

/// The session 1.2 is opened and claims the second line.
const OPENED_LATER: &[u8] = b"\0\0\x01\0\0\0\0\0\0\0\x01\0\0\0\0\0\0\0\x02";

const CLAIM_LATER: &[u8] = b"\0\x01\0\0\0\0\0\0\0\x01\0\0\0\0\0\0\0\x02\0\0\0\0\0\0\0\x02";

/// A line for each effect of each of these bodies.
fn answered<M: Told>(alloc: Global, setup: M::Setup, bodies: &[&[u8]]) -> Result<Vec<u8>, Fail> {
    let mut machine = M::start(alloc, &setup)?;
    let mut out = Vec::new(alloc);
    come_all::<M>(alloc, &mut machine, &mut out, bodies)?;
    Ok(out)
}

const FENCED: &[&[u8]] = &[
    OPENED,
    ATTACH,
    SAY,
    CLAIM,
    CLAIM,
    SHUT,
    HEARD,
    OPENED,
    OPENED_LATER,
    CLAIM_LATER,
];

/// It attaches, and says so by the requests from 2 to 1,002.
fn a_thousand_and_one<M: Hosted>(alloc: Global) -> Result<Vec<M::Command>, Fail> {
    let mut all = Vec::new(alloc);
    all.push(taken::<M::Command>(alloc, ATTACH)?)?;
    for number in 2..1003u64 {
        all.push(say::<M>(alloc, number)?)?;
    }
    Ok(all)
}

fn is_busy(word: Word) -> bool {
    match word {
        Word::Busy => true,
        _ => false,
    }
}

fn is_done(word: Word, number: u64) -> bool {
    match word {
        Word::Done(done) => done == number,
        _ => false,
    }
}

/// Whether these are the answers to requests from 1 to 1,002 of which the last one was told that it is not sent.
fn is_busy_at_last<M: Told>(effects: &[M::Effect]) -> bool {
    let mut number = 1u64;
    for (i, effect) in effects.iter().enumerate() {
        if i == 1001 {
            if !is_busy(M::word(effect)) {
                return false;
            }
        } else {
            if !is_done(M::word(effect), number) {
                return false;
            }
            number = number.wrapping_add(1);
        }
    }
    effects.len() == 1003
}

/// Whether the last of a thousand and one lines is not sent.
fn is_refused_a_line<M: Told>(alloc: Global, setup: M::Setup) -> Result<bool, Fail> {
    let bodies = a_thousand_and_one::<M>(alloc)?;
    let effects = M::answers(alloc, &setup, &bodies)?;
    Ok(is_busy_at_last::<M>(&effects))
}

#[test]
fn each_line_is_handed_once_and_none_past_a_thousand(rt: HostRuntime) -> Result<(), Fail> {
    let alloc = rt.alloc();
    assert!(rt; is_refused_a_line::<Tower>(alloc, Setup::plain(alloc)?)?);
    let text = answered::<Tower>(alloc, Setup::plain(alloc)?, FENCED)?;
    let want =
        b"1 rejoin 1.1 JOIN #x\n2 done 1.1.1 1\n3 done 1.1.1 2\n4 hand 1.1 1 PRIVMSG #x :hi\n9 rejoin 1.2 JOIN #x\n";
    check_bytes(&rt, &text, want);
    Ok(())
}
