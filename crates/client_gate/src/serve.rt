//! What is done for each line of a client. After an error a part may have been done.
ghost use Rattle.std.specs.Prelude.{◌≡◌, false, OnOk};
ghost use Rattle.client_gate.specs.Commands.{command_of};
ghost use Rattle.client_gate.specs.Serving.{all_fed, attached_deeds, fed, line_deeds, served};
ghost use Rattle.client_gate.specs.Turns.{all_done, has_left};

use crate::arriving::{NOT_ENOUGH, arrive, tell_capabilities, tell_pong};
use crate::client_command::ClientCommand;
use crate::messages::{ChannelVerb, ask_all, say_all};
use crate::passing::pass;
use crate::phase::Phase;
use crate::settings::Settings;
use crate::turn::Turn;
use buffer_commands::Verb;
use irc_line::{Item, Line, is_same};
use std::alloc::{AllocError, Global};

/// A JOIN with this parameter leaves all channels (RFC 2812, 3.2.1).
const ALL_CHANNELS: &[u8] = b"0";

/// Does what items ask for, in order.
#[tactic(auto, unfolding(crate::specs::Serving::all_fed))]
pub fn serve_all(
    alloc: Global,
    turn: &mut Turn,
    settings: &Settings,
    items: &[Item],
) -> Result<(), AllocError>
    ensures { OnOk result (turn.new ≡ all_fed settings.now turn.old items.now) }
{
    match items {
        [] => Ok(()),
        [item, items @ ..] => {
            serve_item(alloc, turn, settings, item)?;
            serve_all(alloc, turn, settings, items)
        }
    }
}

/// Does what an item asks for; after a close it is ignored.
#[tactic(auto, unfolding(crate::specs::Serving::fed))]
fn serve_item(
    alloc: Global,
    turn: &mut Turn,
    settings: &Settings,
    item: &Item,
) -> Result<(), AllocError>
    ensures { OnOk result (turn.new ≡ fed settings.now turn.old item.now) }
{
    if turn.is_closed() {
        return Ok(());
    }
    match item {
        Item::Got(line) => serve_line(alloc, turn, settings, line),
        Item::Refused(_) => Ok(()),
    }
}

/// Does what a line asks for.
fn serve_line(
    alloc: Global,
    turn: &mut Turn,
    settings: &Settings,
    line: &Line,
) -> Result<(), AllocError>
    ensures { OnOk result (turn.new ≡ all_done settings.now.nick turn.old
        (line_deeds settings.now turn.old.phase line.now)) }
{
    match turn.phase() {
        Phase::Arriving(arrival) => {
            let arrival = arrival.copy(alloc)?;
            arrive(alloc, turn, settings, arrival, line)
        }
        Phase::Attached => serve_attached(alloc, turn, settings, line),
        Phase::Left => Ok(()),
    }
}

/// Does what a registered client's line asks for.
fn serve_attached(
    alloc: Global,
    turn: &mut Turn,
    settings: &Settings,
    line: &Line,
) -> Result<(), AllocError>
    requires { has_left turn.old.phase ≡ false }
    ensures { OnOk result (turn.new ≡ all_done settings.now.nick turn.old
        (attached_deeds settings.now.nick line.now (command_of line.now.command))) }
{
    let command = ClientCommand::of_word(line.command());
    if command.lacks(line) {
        return turn.reply(
            b"461",
            &[settings.nick.as_bytes(), line.command(), NOT_ENOUGH],
        );
    }
    serve_command(alloc, turn, settings, line, command)
}

/// Does a command with enough parameters.
fn serve_command(
    alloc: Global,
    turn: &mut Turn,
    settings: &Settings,
    line: &Line,
    command: ClientCommand,
) -> Result<(), AllocError>
    requires { has_left turn.old.phase ≡ false }
    ensures { OnOk result (turn.new ≡ all_done settings.now.nick turn.old
        (served settings.now.nick line.now command)) }
{
    let nick = &settings.nick;
    match command {
        ClientCommand::Pass | ClientCommand::User | ClientCommand::Pong => Ok(()),
        ClientCommand::Cap => tell_capabilities(turn, settings, line),
        ClientCommand::Ping => tell_pong(turn, line),
        ClientCommand::Quit => {
            turn.leave()?;
            turn.close();
            Ok(())
        }
        ClientCommand::Join => join(alloc, turn, settings, line),
        ClientCommand::Part => ask_all(alloc, turn, nick, ChannelVerb::Part, line.parameter(0)),
        ClientCommand::Privmsg => say_all(alloc, turn, nick, Verb::Privmsg, line),
        ClientCommand::Notice => say_all(alloc, turn, nick, Verb::Notice, line),
        ClientCommand::Nick | ClientCommand::Topic | ClientCommand::Kick | ClientCommand::Other =>
            pass(alloc, turn, settings, line),
    }
}

/// A JOIN with a key, or one that leaves all channels, goes upstream as it is.
fn join(alloc: Global, turn: &mut Turn, settings: &Settings, line: &Line) -> Result<(), AllocError>
    ensures { OnOk result (turn.new ≡ all_done settings.now.nick turn.old
        (served settings.now.nick line.now ClientCommand.Join)) }
{
    if line.parameter_count() > 1 || is_same(line.parameter(0), ALL_CHANNELS) {
        pass(alloc, turn, settings, line)
    } else {
        ask_all(
            alloc,
            turn,
            &settings.nick,
            ChannelVerb::Join,
            line.parameter(0),
        )
    }
}
