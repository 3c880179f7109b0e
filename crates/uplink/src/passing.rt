//! What a line from the upstream server does.
ghost use Rattle.std.specs.Prelude.{◌≡◌, ◌++◌, IfOk, OnOk};
ghost use Rattle.uplink.specs.Sessions.{after_items, after_line, asked, asking, inputs_for, inputs_from, next_nick, replies_from, reply_to};

use crate::meaning::{Meaning, meaning_of};
use crate::sending::{send_nick, send_pong};
use crate::session::Session;
use crate::{Passed, UplinkInput};
use irc_line::{Item, Line, Name};
use std::alloc::{AllocError, Global};

/// The nick to ask for if this one is in use, while there is one.
fn next_nick(alloc: Global, nick: &Name) -> Result<Option<Name>, AllocError>
    ensures { IfOk result (λ next. next ≡ next_nick nick.now) }
{
    let mut bytes = Vec::from_slice(alloc, nick.as_bytes())?;
    bytes.push(b'_')?;
    Ok(Name::from_bytes(bytes))
}

/// Asks for the next nick, if there is one.
fn ask_again(alloc: Global, nick: Name, reply: &mut Vec<u8>) -> Result<Session, AllocError>
    ensures session { IfOk result (λ s. s ≡ asking nick (next_nick nick)) }
    ensures reply { OnOk result (reply.new.items ≡ reply.old.items ++ asked (next_nick nick)) }
{
    match next_nick(alloc, &nick)? {
        None => Ok(Session::Registering(nick)),
        Some(next) => {
            send_nick(reply, &next)?;
            Ok(Session::Registering(next))
        }
    }
}

/// What a line does before the server has welcomed the client.
#[tactic(auto, unfolding(crate::specs::Sessions::after_line, crate::specs::Sessions::inputs_for, crate::specs::Sessions::reply_to))]
fn register(
    alloc: Global,
    nick: Name,
    line: Line,
    passed: &mut Passed,
) -> Result<Session, AllocError>
    ensures session { IfOk result (λ s. s ≡ after_line (Session.Registering nick) line) }
    ensures inputs { OnOk result (passed.new.inputs.items ≡
        passed.old.inputs.items ++ inputs_for (Session.Registering nick) line) }
    ensures reply { OnOk result (passed.new.reply.items ≡
        passed.old.reply.items ++ reply_to (Session.Registering nick) line) }
{
    match meaning_of(&line) {
        Meaning::Ping => {
            send_pong(&mut passed.reply, &line)?;
            Ok(Session::Registering(nick))
        }
        Meaning::Welcome => {
            passed.inputs.push(UplinkInput::Opened)?;
            passed.inputs.push(UplinkInput::Heard(line))?;
            Ok(Session::Open)
        }
        Meaning::NickInUse => ask_again(alloc, nick, &mut passed.reply),
        Meaning::Other => Ok(Session::Registering(nick)),
    }
}

/// What a line does in an open session.
#[tactic(auto, unfolding(crate::specs::Sessions::inputs_for, crate::specs::Sessions::reply_to))]
fn hear(line: Line, passed: &mut Passed) -> Result<(), AllocError>
    ensures inputs { OnOk result (passed.new.inputs.items ≡
        passed.old.inputs.items ++ inputs_for Session.Open line) }
    ensures reply { OnOk result (passed.new.reply.items ≡
        passed.old.reply.items ++ reply_to Session.Open line) }
{
    match meaning_of(&line) {
        Meaning::Ping => send_pong(&mut passed.reply, &line),
        Meaning::Welcome | Meaning::NickInUse | Meaning::Other => {
            passed.inputs.push(UplinkInput::Heard(line))?;
            Ok(())
        }
    }
}

/// Adds what a line brings. Returns the session after it.
#[tactic(auto, unfolding(crate::specs::Sessions::after_line))]
fn pass_line(
    alloc: Global,
    session: Session,
    line: Line,
    passed: &mut Passed,
) -> Result<Session, AllocError>
    ensures session { IfOk result (λ s. s ≡ after_line session line) }
    ensures inputs { OnOk result (passed.new.inputs.items ≡
        passed.old.inputs.items ++ inputs_for session line) }
    ensures reply { OnOk result (passed.new.reply.items ≡
        passed.old.reply.items ++ reply_to session line) }
{
    match session {
        Session::Registering(nick) => register(alloc, nick, line, passed),
        Session::Open => {
            hear(line, passed)?;
            Ok(Session::Open)
        }
    }
}

/// What items bring, in order, and the session after them.
pub fn pass_items(
    alloc: Global,
    session: Session,
    items: Vec<Item>,
) -> Result<(Session, Passed), AllocError>
    ensures session { IfOk result (λ t. t.0 ≡ after_items session items.items) }
    ensures inputs { IfOk result (λ t. t.1.inputs.items ≡ inputs_from session items.items) }
    ensures reply { IfOk result (λ t. t.1.reply.items ≡ replies_from session items.items) }
{
    let mut session = session;
    let mut passed = Passed::nothing(alloc);
    for item in items {
        if let Item::Got(line) = item {
            session = pass_line(alloc, session, line, &mut passed)?;
        }
    }
    Ok((session, passed))
}
