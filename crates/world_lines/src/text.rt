//! The text of a world.
ghost use Rattle.std.specs.Prelude.{IfOk};
ghost use Rattle.world_lines.specs.OutcomeText.{IsTextOf};

use crate::nodes::push_nodes;
use crate::outcomes::push_outcomes;
use crate::spelled::Spelled;
use machine_laws::Hosted;
use raft_node::Described;
use recorder::Words;
use std::alloc::{AllocError, Global};
use world_events::Event;
use world_run::World;

/// What came out of the events of a world that was run over them, and then the states of its nodes.
/// For a world that does not come from these events the text says nothing.
pub fn world_text<M>(
    alloc: Global,
    events: &[Event<M::Command, M::Line, M::Target>],
    world: &World<M>,
) -> Result<Vec<u8>, AllocError>
where
    M: Hosted,
    M::Effect: Words,
    M::Played: Spelled,
    ensures { IfOk result (λ v. (setup : M.Setup) → IsTextOf (⟦<M as Described>⟧.machine setup)
        M.Effect.words M.Played.spelled events.now world.now v.items) }
{
    let mut out = Vec::new(alloc);
    push_outcomes(&mut out, events, world.outputs())?;
    push_nodes(&mut out, world)?;
    Ok(out)
}
