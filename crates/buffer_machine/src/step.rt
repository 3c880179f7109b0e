//! One step: what a command brings about, and what is held after it.
ghost use Rattle.std.specs.Prelude.{◌≡◌, IfOk, IsOk, OnOk};
ghost use Rattle.buffer_machine.specs.Effects.{TakesNone};
ghost use Rattle.buffer_machine.specs.Machine.{held_of};
ghost use Rattle.buffer_machine.specs.Steps.{IsWithinLimits, after};
ghost use Rattle.buffer_machine.specs.FloorSteps.{floor_for, floors_after};
ghost use Rattle.buffer_machine.specs.Answering.{answers};

use crate::actions::act;
use crate::buffers::Buffers;
use crate::floors::{floor_of, raise};
use crate::hearing::hear;
use crate::showing::rejoin_all;
use buffer_commands::{Command, Effect, Setup};
use std::alloc::{AllocError, Global};

/// Does what a command asks for. After an error a part of it may have been done.
pub fn step(
    alloc: Global,
    setup: &Setup,
    floors: &mut [u64],
    buffers: &mut Buffers,
    command: &Command,
) -> Result<Vec<Effect>, AllocError>
    ensures limits { IsWithinLimits command.now }
    ensures floors { OnOk result (floors.new ≡ floors_after floors.old command.now) }
    ensures held { OnOk result (held_of buffers.new ≡
        after setup.now (floor_for floors.old command.now) (held_of buffers.old) command.now) }
    ensures effects { IfOk result (λ v. v.items ≡
        answers setup.now (floor_for floors.old command.now) (held_of buffers.old) command.now) }
    ensures memory { TakesNone buffers.old.clients command.now → IsOk result }
{
    match command {
        Command::Client(origin, at, action) => {
            let floor = floor_of(floors, origin.node());
            act(alloc, setup, floor, buffers, *origin, *at, action)
        }
        Command::Upstream(at, line) => hear(alloc, setup, buffers, *at, line.line()),
        Command::NodeGone(node, boot) => {
            buffers.clients.remove_below(*node, *boot);
            buffers.names.remove_below(*node, *boot);
            raise(floors, *node, *boot);
            Ok(Vec::new(alloc))
        }
        Command::Up => rejoin_all(alloc, buffers.channels.as_slice()),
        Command::Down => {
            buffers.channels.leave_all();
            Ok(Vec::new(alloc))
        }
    }
}
