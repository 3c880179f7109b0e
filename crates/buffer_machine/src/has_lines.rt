//! The buffers get the lines from upstream, and send lines there.
ghost use Rattle.std.specs.Prelude.{Some, None};

use crate::machine::BufferMachine;
use buffer_commands::{Command, Effect, WireLine};
use irc_line::Line;
use machine_laws::{HasLines, Machine};
use std::alloc::{AllocError, Global};
use wire_bytes::{Copied, Moment, Origin};

impl HasLines for BufferMachine {
    ghost use Rattle.buffer_commands.specs.declared.command.Command.TheVariants.{Upstream, Up, Down};
    ghost use Rattle.buffer_commands.specs.declared.effect.Effect.TheVariants.{Close, Show, Send, Rejoin};

    type Line = WireLine;

    ghost heard = { Upstream };

    ghost up = { Up };

    ghost down = { Down };

    ghost rejoined = { elim [
      | Close o ↦ None
      | Show o shown ↦ None
      | Send o line ↦ None
      | Rejoin line ↦ Some line
    ] };

    ghost sent = { elim [
      | Close o ↦ None
      | Show o shown ↦ None
      | Send o line ↦ Some (o, line)
      | Rejoin line ↦ None
    ] };

    fn heard(alloc: Global, at: Moment, line: &WireLine) -> Result<Command, AllocError> {
        Ok(Command::Upstream(at, line.copy(alloc)?))
    }

    fn up() -> Command {
        Command::Up
    }

    fn down() -> Command {
        Command::Down
    }

    fn rejoined(effect: Effect) -> Result<Line, Effect> {
        match effect {
            Effect::Rejoin(line) => Ok(line),
            other => Err(other),
        }
    }

    fn sent(effect: Effect) -> Result<(Origin, Line), Effect> {
        match effect {
            Effect::Send(origin, line) => Ok((origin, line)),
            other => Err(other),
        }
    }
}
