//! Events over the nodes of a bouncer.
ghost use Rattle.std.specs.Prelude.{◌≡◌, IfOk};
ghost use Rattle.world_app.specs.Worlds.{bouncer_text};

use bouncer_tower::TowerBody;
use buffer_commands::{Setup, WireLine};
use headline::run_bouncers;
use irc_line::Name;
use raft_log::GroupSize;
use std::alloc::{AllocError, Global};
use world_events::Event;
use world_lines::world_text;

/// The text of what comes out of events, and of the nodes' states afterwards.
pub fn events_text(
    alloc: Global,
    size: GroupSize,
    setup: &Setup,
    events: &[Event<TowerBody, WireLine, Name>],
) -> Result<Vec<u8>, AllocError>
    ensures { IfOk result (λ text. text.items ≡ bouncer_text setup.now size events.now) }
{
    match run_bouncers(alloc, size.value(), setup, events) {
        Ok(world) => world_text(alloc, events, &world),
        // The size is one that groups have, so memory ran out.
        Err(_) => Err(AllocError),
    }
}
