//! An input that is gone, for clauses only.
ghost use Rattle.std.specs.Prelude.{◌≡◌};
ghost use Rattle.world_views.specs.declared.node_event.NodeEvent.TheVariants.{Does, StopIn};
ghost use Rattle.node_cells.specs.declared.record.Recording.{Recording};
ghost use Rattle.node_cells.specs.Copies.{IsCopy, IsKept};

use crate::for_record::ForRecord;
use std::marker::Model;
use std::snapshot::Snapshot;
use wire_bytes::Wire;
use world_views::{NodeEvent, NodeInput};

/// An input of a node for clauses only, with each event that it may lead to: it has no bytes.
#[derive(Drop)]
pub struct ToldInput<B: Wire, L, T> {
    input: Snapshot<NodeInput<B, L>>,
    done: Snapshot<NodeEvent<B, L, T>>,
    stopped_before: Snapshot<NodeEvent<B, L, T>>,
    stopped_after: Snapshot<NodeEvent<B, L, T>>,
}

impl<B: Wire, L, T> Model for ToldInput<B, L, T> {
    ghost use Rattle.std.specs.Prelude.{◌≡◌, true, false};
    ghost use Rattle.raft_node.specs.declared.input.Input.{Input};
    ghost use Rattle.world_views.specs.declared.envelope.Envelope.{Envelope};
    ghost use Rattle.world_views.specs.declared.node_event.NodeEvent.TheVariants.{Does, StopIn};

    ghost Value = { Input (Envelope B) B L };

    ghost view = { λ t. t.input.value };

    ghost invariant = { λ t. (t.done.value ≡ Does t.input.value)
        × (t.stopped_before.value ≡ StopIn t.input.value false)
        × (t.stopped_after.value ≡ StopIn t.input.value true) };
}

impl<B: Wire, L, T> ToldInput<B, L, T> {
    /// Returns the input, and remembers it for clauses.
    pub fn of(input: NodeInput<B, L>) -> (NodeInput<B, L>, Self)
        ensures { (result.0 ≡ input) × (result.1 ≡ input) }
    {
        let (input, done) = told_done(input);
        let (input, stopped_before) = told_stop(input, false);
        let (input, stopped_after) = told_stop(input, true);
        let told = ToldInput {
            input: Snapshot::of(&input),
            done,
            stopped_before,
            stopped_after,
        };
        (input, told)
    }

    /// For the record: the input is done, with its copy.
    pub fn done(self, copy: Option<NodeInput<B, L>>) -> ForRecord<NodeEvent<B, L, T>>
        ensures told { result.told.value ≡ Does self }
        ensures kept { (r : Recording) → IsCopy r self copy → IsKept r result }
    {
        ForRecord {
            told: self.done,
            kept: match copy {
                Some(input) => Some(NodeEvent::Does(input)),
                None => None,
            },
        }
    }

    /// For the record: the node stops in the input, before it is saved or after that, with its copy.
    pub fn stopped(
        self,
        copy: Option<NodeInput<B, L>>,
        saved: bool,
    ) -> ForRecord<NodeEvent<B, L, T>>
        ensures told { result.told.value ≡ StopIn self saved }
        ensures kept { (r : Recording) → IsCopy r self copy → IsKept r result }
    {
        let ToldInput {
            stopped_before,
            stopped_after,
            ..
        } = self;
        ForRecord {
            told: if saved { stopped_after } else { stopped_before },
            kept: match copy {
                Some(input) => Some(NodeEvent::StopIn(input, saved)),
                None => None,
            },
        }
    }
}

/// The input, and for clauses that it is done.
fn told_done<B: Wire, L, T>(
    input: NodeInput<B, L>,
) -> (NodeInput<B, L>, Snapshot<NodeEvent<B, L, T>>)
    ensures { (result.0 ≡ input) × (result.1.value ≡ Does input) }
{
    let event = NodeEvent::Does(input);
    let told = Snapshot::of(&event);
    let NodeEvent::Does(input) = event else {
        unreachable!()
    };
    (input, told)
}

/// The input, and for clauses that the node stops in it.
fn told_stop<B: Wire, L, T>(
    input: NodeInput<B, L>,
    saved: bool,
) -> (NodeInput<B, L>, Snapshot<NodeEvent<B, L, T>>)
    ensures { (result.0 ≡ input) × (result.1.value ≡ StopIn input saved) }
{
    let event = NodeEvent::StopIn(input, saved);
    let told = Snapshot::of(&event);
    let NodeEvent::StopIn(input, _) = event else {
        unreachable!()
    };
    (input, told)
}
