//! What came out of a run, as lines.
ghost use Rattle.std.specs.Prelude.{◌≡◌, ◌++◌, OnOk};
ghost use Rattle.world_lines.specs.OutcomeText.{outcomes_lines};
ghost use Rattle.records.specs.RecordText.{events_of, nodes_text, outcomes_of, outputs_text};

use crate::record::{Merged, Turn};
use buffer_commands::WireLine;
use irc_line::Name;
use raft_log::NodeId;
use recorder::{NodeFields, Words, push_fields};
use std::alloc::AllocError;
use wire_bytes::Wire;
use world_events::Event;
use world_lines::{Spelled, named_by, push_outcome};
use world_run::Outcome;

/// Appends what came out of each turn, numbered from 1, and the states of the nodes. After an error a part of it may
/// have been appended.
pub fn push_outputs<B: Wire, E: Words, P: Spelled>(
    out: &mut Vec<u8>,
    run: &Merged<Event<B, WireLine, Name>, Outcome<E, P>>,
) -> Result<(), AllocError>
    ensures { OnOk result (out.new.items ≡ out.old.items ++
        outputs_text E.words P.spelled run.now) }
{
    push_turns(out, &run.turns)?;
    push_states(out, &run.nodes)
}

/// Appends what came out of each turn, numbered from 1.
fn push_turns<B: Wire, E: Words, P: Spelled>(
    out: &mut Vec<u8>,
    turns: &[Turn<Event<B, WireLine, Name>, Outcome<E, P>>],
) -> Result<(), AllocError>
    ensures { OnOk result (out.new.items ≡ out.old.items ++
        outcomes_lines E.words P.spelled 1 (events_of turns.now) (outcomes_of turns.now)) }
{
    for (place, turn) in turns.iter().enumerate() {
        push_outcome(out, place as u64 + 1, named_by(&turn.event), &turn.outcome)?;
    }
    Ok(())
}

/// Appends the line of each node.
fn push_states(out: &mut Vec<u8>, nodes: &[(NodeId, NodeFields)]) -> Result<(), AllocError>
    ensures { OnOk result (out.new.items ≡ out.old.items ++ nodes_text nodes.now) }
{
    for (node, fields) in nodes {
        push_fields(out, *node, fields)?;
    }
    Ok(())
}
