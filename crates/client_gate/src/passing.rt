//! Lines of a client that go upstream as they are, except for their prefix. After an error a part
//! may have been done.
ghost use Rattle.std.specs.Prelude.{◌≡◌, OnOk};
ghost use Rattle.client_gate.specs.Serving.{passed};
ghost use Rattle.client_gate.specs.Turns.{all_done};

use crate::settings::Settings;
use crate::turn::Turn;
use buffer_commands::{Action, WireLine};
use irc_line::Line;
use std::alloc::{AllocError, Global};

/// Passes a line upstream without its prefix.
pub fn pass(
    alloc: Global,
    turn: &mut Turn,
    settings: &Settings,
    line: &Line,
) -> Result<(), AllocError>
    ensures { OnOk result (turn.new ≡ all_done settings.now.nick turn.old (passed line.now)) }
{
    match WireLine::from_line(line.without_prefix(alloc)?) {
        Some(line) => turn.ask(&settings.nick, Action::Pass(line)),
        None => Ok(()),
    }
}
