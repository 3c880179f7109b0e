//! What is printed for a command.
ghost use Rattle.std.specs.Prelude.{◌≡◌, ◌++◌, ℕ, OnOk};
ghost use Rattle.machine_laws.specs.Runs.{History};
ghost use Rattle.buffer_commands.specs.Settings.{Settings};
ghost use Rattle.buffer_machine.specs.Buffers.{nick};
ghost use Rattle.buffer_machine.specs.Crowd.{attached};
ghost use Rattle.buffer_machine.specs.Held.{commands};
ghost use Rattle.buffer_machine.specs.Machine.{Stands};
ghost use Rattle.chat_log.specs.Chats.{concerns, is_wanted, shown_text, told, told_line};

use crate::choice::Choice;
use crate::text::push_line;
use buffer_commands::{Action, Command};
use buffer_machine::{BufferMachine, channel_of, is_query_line, own_message, source_of};
use irc_line::{Line, Name, is_same_name};
use std::alloc::{AllocError, Global};
use wire_bytes::Moment;

/// Appends what is printed for a command, given the buffers before it. After an error a part of it may have been
/// appended.
#[tactic(auto, using(crate::proofs::Shown::nothing_shown))]
pub fn push_told(
    alloc: Global,
    out: &mut Vec<u8>,
    buffers: &BufferMachine,
    choice: &Choice,
    command: &Command,
) -> Result<(), AllocError>
    ensures { (s : Settings) (history : History Command) → Stands buffers.now s history
        → OnOk result (out.new.items ≡ out.old.items ++ shown_text choice.now.extent
        (told choice.now.target (attached s (commands history)) (nick s (commands history))
        command.now)) }
{
    match command {
        Command::Upstream(at, line) => {
            push_wanted(alloc, out, choice, buffers.nick(), *at, line.line())
        }
        Command::Client(client, at, Action::Say(verb, name, text)) => {
            if !buffers.is_attached(*client) {
                return Ok(());
            }
            let line = own_message(alloc, buffers.nick(), *verb, name, text)?;
            push_wanted(alloc, out, choice, buffers.nick(), *at, &line)
        }
        Command::Client(_, _, _) | Command::NodeGone(_, _) | Command::Up | Command::Down => Ok(()),
    }
}

/// Appends a line at a moment, if it is to be printed.
#[tactic(auto, using(crate::proofs::Shown::one_shown))]
fn push_wanted(
    alloc: Global,
    out: &mut Vec<u8>,
    choice: &Choice,
    nick: &Name,
    at: Moment,
    line: &Line,
) -> Result<(), AllocError>
    ensures { OnOk result (out.new.items ≡ out.old.items ++ shown_text choice.now.extent
        (told_line choice.now.target nick.now at line.now)) }
{
    if is_wanted(&choice.target, nick, line) && choice.extent.has(line) {
        push_line(alloc, out, at, line)
    } else {
        Ok(())
    }
}

/// Whether a line is wanted: all lines are without a target, with one those that concern it.
fn is_wanted(target: &Option<Name>, nick: &Name, line: &Line) -> bool
    ensures { result ≡ is_wanted target.now nick.now line.now }
{
    match target {
        None => true,
        Some(target) => concerns(target, nick, line),
    }
}

/// Whether a line names a target as its channel, is said to it, or belongs to its query.
fn concerns(target: &Name, nick: &Name, line: &Line) -> bool
    ensures { result ≡ concerns nick.now target.now line.now }
{
    let (target, nick) = (target.as_bytes(), nick.as_bytes());
    is_same_name(target, channel_of(line))
        || (is_query_line(line, nick) && is_same_name(target, source_of(line)))
}
