//! Records, drawn.
ghost use Rattle.std.specs.Prelude.{IfErr, IfOk};
ghost use Rattle.world_app.specs.Drawings.{IsDrawingFault, IsDrawingOf};

use crate::diagrams::diagram_of;
use crate::svg::picture;
use bouncer_tower::{Tower, TowerBody};
use records::{ReplayFault, parse_record};
use setup_spelling::WireSetup;
use std::alloc::Global;

/// Runs the events of a record file over its setup and its number of nodes, and draws the run in SVG: a lane for each
/// node, a row for each event, and an arrow for each message from the row in which it was sent to the row in which it
/// was delivered.
pub fn draw(alloc: Global, input: &[u8]) -> Result<Vec<u8>, ReplayFault>
    ensures drawn { IfOk result (λ text. IsDrawingOf input.now text.items) }
    ensures bad { IfErr result (IsDrawingFault input.now) }
{
    let (recording, _) = parse_record::<WireSetup, TowerBody>(alloc, input)?;
    let setup = recording.setup.setup();
    let diagram = diagram_of::<Tower>(alloc, recording.size, setup, &recording.events)?;
    Ok(picture(alloc, &diagram)?)
}
