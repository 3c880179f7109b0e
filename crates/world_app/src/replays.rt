//! Records, run again.
ghost use Rattle.std.specs.Prelude.{IfErr, IfOk};
ghost use Rattle.world_app.specs.Replays.{IsReplayFault, IsReplayOf};

use crate::running::events_text;
use bouncer_tower::TowerBody;
use records::{ReplayFault, Verdict, parse_record, verdict_of};
use setup_spelling::WireSetup;
use std::alloc::Global;

/// Runs the events of a record file over its setup and its number of nodes, and compares what comes out with its lines
/// after `outputs`.
///
/// Only the run's own output is held besides the input: the recorded lines are compared in place.
pub fn replay(alloc: Global, input: &[u8]) -> Result<Verdict, ReplayFault>
    ensures verdict { IfOk result (IsReplayOf input.now) }
    ensures bad { IfErr result (IsReplayFault input.now) }
{
    let (recording, outputs) = parse_record::<WireSetup, TowerBody>(alloc, input)?;
    let setup = recording.setup.setup();
    let text = events_text(alloc, recording.size, setup, &recording.events)?;
    Ok(verdict_of(outputs, &text))
}
