//! A client that is not registered yet (RFC 2812, 3.1). After an error a part may have been done.
ghost use Rattle.std.specs.Prelude.{◌≡◌, false, true, OnOk};
ghost use Rattle.client_gate.specs.Registering.{admitted, arriving_deeds, cap_deeds, early, is_early, seen};
ghost use Rattle.irc_line.specs.Lines.{parameter};
ghost use Rattle.client_gate.specs.Commands.{command_of};
ghost use Rattle.client_gate.specs.Replies.{not_registered, pong};
ghost use Rattle.client_gate.specs.Turns.{all_done, has_left, written};

use crate::client_command::ClientCommand;
use crate::password::Password;
use crate::phase::{Arrival, Phase};
use crate::settings::Settings;
use crate::turn::Turn;
use buffer_commands::Action;
use irc_line::{Line, is_same};
use std::alloc::{AllocError, Global};

/// The name of a client in answers before it has a nick.
const ANYONE: &[u8] = b"*";

const WELCOME: &[u8] = b"Welcome to the bouncer";

const INCORRECT: &[u8] = b"Password incorrect";

const NOT_REGISTERED: &[u8] = b"You have not registered";

pub const NOT_ENOUGH: &[u8] = b"Not enough parameters";

const LIST: &[u8] = b"LS";

const NOTHING: &[u8] = b"";

const BOUNCER: &[u8] = b"bouncer.local";

/// Does what a line asks for.
pub fn arrive(
    alloc: Global,
    turn: &mut Turn,
    settings: &Settings,
    arrival: Arrival,
    line: &Line,
) -> Result<(), AllocError>
    requires { has_left turn.old.phase ≡ false }
    ensures { OnOk result (turn.new ≡ all_done settings.now.nick turn.old
        (arriving_deeds settings.now arrival line.now (command_of line.now.command))) }
{
    let command = ClientCommand::of_word(line.command());
    if is_early(command) && command.lacks(line) {
        return turn.reply(b"461", &[ANYONE, line.command(), NOT_ENOUGH]);
    }
    take(alloc, turn, settings, arrival, line, command)
}

fn is_early(command: ClientCommand) -> bool
    ensures { result ≡ is_early command }
{
    match command {
        ClientCommand::Pass | ClientCommand::Nick | ClientCommand::User | ClientCommand::Ping => {
            true
        }
        _ => false,
    }
}

/// Does a command with enough parameters.
fn take(
    alloc: Global,
    turn: &mut Turn,
    settings: &Settings,
    mut arrival: Arrival,
    line: &Line,
    command: ClientCommand,
) -> Result<(), AllocError>
    requires { has_left turn.old.phase ≡ false }
    ensures { OnOk result (turn.new ≡ all_done settings.now.nick turn.old
        (early settings.now arrival line.now command)) }
{
    match command {
        ClientCommand::Pass => {
            arrival.password = Some(Password::from_slice(alloc, line.parameter(0))?);
            turn.move_to(Phase::Arriving(arrival));
            Ok(())
        }
        ClientCommand::Nick => {
            arrival.nick = true;
            see(alloc, turn, settings, arrival)
        }
        ClientCommand::User => {
            arrival.user = true;
            see(alloc, turn, settings, arrival)
        }
        ClientCommand::Cap => tell_capabilities(turn, settings, line),
        ClientCommand::Ping => tell_pong(turn, line),
        ClientCommand::Quit => {
            turn.close();
            Ok(())
        }
        ClientCommand::Pong
        | ClientCommand::Join
        | ClientCommand::Part
        | ClientCommand::Privmsg
        | ClientCommand::Notice
        | ClientCommand::Topic
        | ClientCommand::Kick
        | ClientCommand::Other => refuse_early(turn),
    }
}

/// Answers that a command comes too early.
fn refuse_early(turn: &mut Turn) -> Result<(), AllocError>
    ensures { OnOk result (turn.new ≡ written not_registered turn.old) }
{
    turn.reply(b"451", &[ANYONE, NOT_REGISTERED])
}

/// Notes that NICK or USER was seen.
fn see(
    alloc: Global,
    turn: &mut Turn,
    settings: &Settings,
    arrival: Arrival,
) -> Result<(), AllocError>
    requires { has_left turn.old.phase ≡ false }
    ensures { OnOk result (turn.new ≡ all_done settings.now.nick turn.old
        (seen settings.now arrival)) }
{
    if arrival.nick && arrival.user {
        admit(alloc, turn, settings, arrival)
    } else {
        turn.move_to(Phase::Arriving(arrival));
        Ok(())
    }
}

/// Checks the password, once NICK and USER were seen.
fn admit(
    alloc: Global,
    turn: &mut Turn,
    settings: &Settings,
    arrival: Arrival,
) -> Result<(), AllocError>
    requires { has_left turn.old.phase ≡ false }
    ensures { OnOk result (turn.new ≡ all_done settings.now.nick turn.old
        (admitted settings.now arrival)) }
{
    match arrival.admission(alloc, &settings.password)? {
        Some(id) => {
            turn.reply(b"001", &[settings.nick.as_bytes(), WELCOME])?;
            turn.move_to(Phase::Attached);
            turn.ask(&settings.nick, Action::Attach(id))
        }
        None => {
            turn.reply(b"464", &[ANYONE, INCORRECT])?;
            turn.move_to(Phase::Arriving(arrival));
            turn.close();
            Ok(())
        }
    }
}

/// Answers `CAP LS`; any other CAP is skipped.
pub fn tell_capabilities(
    turn: &mut Turn,
    settings: &Settings,
    line: &Line,
) -> Result<(), AllocError>
    ensures { OnOk result (turn.new ≡ all_done settings.now.nick turn.old (cap_deeds line.now)) }
{
    if is_same(line.parameter(0), LIST) {
        turn.reply(b"CAP", &[ANYONE, LIST, NOTHING])
    } else {
        Ok(())
    }
}

/// Answers a PING (RFC 2812, 3.7.2).
pub fn tell_pong(turn: &mut Turn, line: &Line) -> Result<(), AllocError>
    ensures { OnOk result (turn.new ≡ written (pong (parameter 0 line.now)) turn.old) }
{
    turn.reply(b"PONG", &[BOUNCER, line.parameter(0)])
}
