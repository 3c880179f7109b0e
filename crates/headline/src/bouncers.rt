//! The bouncer over a group of nodes.
ghost use Rattle.std.specs.Prelude.{◌≡◌, ◌↔◌, Err, IfOk};
ghost use Rattle.raft_log.specs.Peers.{IsGroupSize};
ghost use Rattle.world_run.specs.Groups.{IsWorld};
ghost use Rattle.world_run.specs.Told.{events_of};
ghost use Rattle.world_run.specs.declared.outcome.WorldFault.TheVariants.{Refused};
ghost use Rattle.headline.specs.Tower.{tower};
ghost use Rattle.headline.specs.Promises.{IsHeadline};

use bouncer_tower::{Tower, TowerBody};
use buffer_commands::{Setup, WireLine};
use irc_line::Name;
use std::alloc::Global;
use world_events::Event;
use world_run::{World, WorldFault};

/// What the bouncer on a group of this size over new stores becomes by these events, in order, run by the nodes' own
/// code. A size that no group has is `Refused`.
///
/// Over every list of timeouts, deliveries, losses, repeats, reorderings, requests, upstream lines and
/// restarts that keep what was saved, the committed entries of any two nodes at any two moments are
/// prefixes of one list; every playback is the plain machine's after its place in that list, repeats
/// removed; no numbered request takes effect twice; no outgoing line is handed upstream twice.
pub fn run_bouncers(
    alloc: Global,
    size: u8,
    setup: &Setup,
    events: &[Event<TowerBody, WireLine, Name>],
) -> Result<World<Tower>, WorldFault>
    ensures world { IfOk result (IsWorld (tower setup.now) size events.now) }
    ensures headline { IfOk result (λ _. IsHeadline setup.now size
        (events_of (tower setup.now) events.now)) }
    ensures setup { IfOk result (λ w. w.setup ≡ setup.now) }
    ensures allowed { IfOk result (λ _. IsGroupSize size) }
    ensures refused { (result ≡ Err (Refused size)) ↔ (IsGroupSize size → ⊥) }
{
    World::run(alloc, size, setup, events)
}
