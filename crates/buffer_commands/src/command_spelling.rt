//! Commands as bytes: a kind byte, followed by the fields of that kind.
ghost use Rattle.std.specs.Prelude.{◌≡◌, ◌≢◌, ◌≤◌, length, IfOk, IfErr, Ok, Err};
ghost use Rattle.buffer_commands.specs.Spellings.{FitsCommand};

use crate::command::{Action, Command};
use crate::fields::put_two;
use crate::wire_line::WireLine;
use std::alloc::{AllocError, Global};
use wire_bytes::{Moment, Number, Origin, Wire, WireFault, take_behind, undo};

impl Command {
    /// Does nothing. A command always has a spelling, since its types keep its limits.
    pub fn fits(&self)
        ensures { FitsCommand self.now }
    {
        match self {
            Command::Client(origin, at, action) => {
                origin.node();
                origin.boot();
                origin.client();
                at.seconds();
                action.fits();
            }
            Command::Upstream(at, line) => {
                at.seconds();
                line.fits();
            }
            Command::NodeGone(node, floor) => {
                let _node = *node;
                floor.value();
            }
            Command::Up | Command::Down => {}
        }
    }
}

/// Client is 1 with origin, moment and action, Upstream 2 with moment and line, NodeGone 3 with node
/// and floor, Up 4, Down 5.
impl Wire for Command {
    ghost use Rattle.buffer_commands.specs.Spellings.{spelled_command, FitsCommand, command, command_wants};
    ghost use Rattle.buffer_commands.specs.CommandCodec.{command_is_codec};

    ghost spelled = { spelled_command };

    ghost fits = { FitsCommand };

    ghost taken = { command };

    ghost wants = { command_wants };

    #[tactic(auto, unfolding(crate::specs::Spellings::spelled_command))]
    fn put(&self, out: &mut Vec<u8>) -> Result<(), AllocError> {
        let len = out.len();
        match self {
            Command::Client(origin, at, action) => {
                out.push(1)?;
                let outcome = put_two(out, &(*origin, *at), action);
                undo(out, len, outcome)
            }
            Command::Upstream(at, line) => {
                out.push(2)?;
                let outcome = put_two(out, at, line);
                undo(out, len, outcome)
            }
            Command::NodeGone(node, floor) => {
                out.push(3)?;
                let outcome = put_two(out, node, floor);
                undo(out, len, outcome)
            }
            Command::Up => Ok(out.push(4)?),
            Command::Down => Ok(out.push(5)?),
        }
    }

    #[tactic(auto, using(wire_bytes::proofs::Steps::composed), unfolding(crate::specs::Spellings::command))]
    fn take(alloc: Global, input: &[u8]) -> Result<(Self, usize), WireFault> {
        match input {
            [] => Err(WireFault::Short),
            [1, ..] => {
                let (((origin, at), action), end) = take_behind::<((Origin, Moment), Action)>(
                    alloc, input, 1,
                )?;
                Ok((Command::Client(origin, at, action), end))
            }
            [2, ..] => {
                let ((at, line), end) = take_behind::<(Moment, WireLine)>(alloc, input, 1)?;
                Ok((Command::Upstream(at, line), end))
            }
            [3, ..] => {
                let ((node, floor), end) = take_behind::<(u8, Number)>(alloc, input, 1)?;
                Ok((Command::NodeGone(node, floor), end))
            }
            [4, ..] => Ok((Command::Up, 1)),
            [5, ..] => Ok((Command::Down, 1)),
            _ => Err(WireFault::Bad(0)),
        }
    }

    ghost is_codec = { command_is_codec };
}
