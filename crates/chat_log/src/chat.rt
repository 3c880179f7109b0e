//! The machine that writes down the chat.
ghost use Rattle.std.specs.Prelude.{◌≡◌, ◌↔◌, ◌∷◌, None, false, IfErr, IfOk, IsErr, IsTrue, OnErr, OnOk};
ghost use Rattle.machine_laws.specs.Runs.{History};
ghost use Rattle.buffer_machine.specs.Held.{commands};
ghost use Rattle.buffer_machine.specs.Machine as buffers_machine;
ghost use Rattle.buffer_commands.specs.Settings.{Settings};
ghost use Rattle.chat_log.specs.Chats.{chat_text};

use crate::choice::Choice;
use crate::setup::{ChatSetup, Silence};
use crate::telling::push_told;
use buffer_commands::{Action, Command, WireLine};
use buffer_machine::BufferMachine;
use irc_line::Line;
use machine_laws::{ApplyFault, HasClients, HasLines, Machine};
use std::alloc::{AllocError, Global};
use wire_bytes::{Copied, Moment, Number, Origin};

/// The text of the commands that came. The buffers say what the own nick is and who is attached.
#[derive(Drop)]
pub struct Chat {
    alloc: Global,
    choice: Choice,
    buffers: BufferMachine,
    text: Vec<u8>,
    spoilt: bool,
}

impl Chat {
    ghost use Rattle.chat_log.specs.Machine.{Stands};

    /// The text of the commands that came, the oldest first.
    pub fn text(&self) -> &[u8]
        ensures { (s : ChatSetup) (history : History Command) → Stands self.now s history
            → result.now ≡ chat_text s.buffers s.choice.extent s.choice.target (commands history) }
    {
        self.text.as_slice()
    }
}

impl Machine for Chat {
    ghost use Rattle.chat_log.specs.Machine.{Stands, nothing};

    type Setup = ChatSetup;

    type Command = Command;

    type Effect = Silence;

    ghost stands = { Stands };

    ghost effects = { nothing };

    ghost spoilt = { λ m. m.spoilt };

    fn start(alloc: Global, setup: &ChatSetup) -> Result<Self, AllocError> {
        Ok(Chat {
            alloc,
            choice: setup.choice.copy(alloc)?,
            buffers: BufferMachine::start(alloc, &setup.buffers)?,
            text: Vec::new(alloc),
            spoilt: false,
        })
    }

    fn apply(&mut self, place: u64, command: &Command) -> Result<Vec<Silence>, ApplyFault> {
        if self.spoilt {
            return Err(ApplyFault::Spoilt);
        }
        let outcome = step(
            self.alloc,
            &mut self.text,
            &mut self.buffers,
            &self.choice,
            place,
            command,
        );
        match outcome {
            Ok(()) => Ok(Vec::new(self.alloc)),
            Err(_) => {
                self.spoilt = true;
                Err(ApplyFault::Memory)
            }
        }
    }

    ghost stands_whole = { λ m s history h. h.whole };
}

/// Prints a command, given the buffers before it, and applies it to them.
fn step(
    alloc: Global,
    text: &mut Vec<u8>,
    buffers: &mut BufferMachine,
    choice: &Choice,
    place: u64,
    command: &Command,
) -> Result<(), ApplyFault>
    ensures buffers { (s : Settings) (history : History Command)
        → buffers_machine.Stands buffers.old s history
        → OnOk result (buffers_machine.Stands buffers.new s ((place, command.now) ∷ history)) }
    ensures text { (s : Settings) (history : History Command)
        → buffers_machine.Stands buffers.old s history
        → text.old.items ≡ chat_text s choice.now.extent choice.now.target (commands history)
        → OnOk result (text.new.items ≡ chat_text s choice.now.extent choice.now.target
        (commands ((place, command.now) ∷ history))) }
{
    // what is printed depends on the state before
    push_told(alloc, text, buffers, choice, command)?;
    buffers.apply(place, command)?;
    Ok(())
}

impl HasClients for Chat {
    ghost use Rattle.buffer_commands.specs.declared.command.Command.TheVariants.{Client, NodeGone};

    type Action = Action;

    ghost client = { Client };

    ghost node_gone = { NodeGone };

    fn client(
        alloc: Global,
        origin: Origin,
        at: Moment,
        action: &Action,
    ) -> Result<Command, AllocError> {
        BufferMachine::client(alloc, origin, at, action)
    }

    fn node_gone(node: u8, floor: Number) -> Command {
        BufferMachine::node_gone(node, floor)
    }
}

impl HasLines for Chat {
    ghost use Rattle.buffer_commands.specs.declared.command.Command.TheVariants.{Upstream, Up, Down};

    type Line = WireLine;

    ghost heard = { Upstream };

    ghost up = { Up };

    ghost down = { Down };

    ghost rejoined = { λ _. None };

    ghost sent = { λ _. None };

    fn heard(alloc: Global, at: Moment, line: &WireLine) -> Result<Command, AllocError> {
        BufferMachine::heard(alloc, at, line)
    }

    fn up() -> Command {
        BufferMachine::up()
    }

    fn down() -> Command {
        BufferMachine::down()
    }

    fn rejoined(effect: Silence) -> Result<Line, Silence> {
        Err(effect)
    }

    fn sent(effect: Silence) -> Result<(Origin, Line), Silence> {
        Err(effect)
    }
}
