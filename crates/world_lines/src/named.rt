//! The node that an event names.
ghost use Rattle.std.specs.Prelude.{◌≡◌};
ghost use Rattle.world_lines.specs.OutputText.{named_in, named_node};

use raft_log::NodeId;
use world_events::{Event, Input};

/// The node that an event names; for a delivery the sender.
pub fn named_by<B, L, T>(event: &Event<B, L, T>) -> NodeId
    ensures { result ≡ named_node event.now }
{
    match event {
        Event::Does(input) => named_by_input(input),
        Event::Restart(node) => *node,
        Event::StopIn(input, _) => named_by_input(input),
    }
}

fn named_by_input<B, L, T>(input: &Input<B, L, T>) -> NodeId
    ensures { result ≡ named_in input.now }
{
    match input {
        Input::Timeout(node) => *node,
        Input::Beat(node) => *node,
        Input::Deliver(node, _) => *node,
        Input::Ask(node, _) => *node,
        Input::Opened(node) => *node,
        Input::Closed(node) => *node,
        Input::Heard(node, _, _) => *node,
        Input::Claim(node) => *node,
        Input::Apply(node) => *node,
        Input::Look(node, _, _) => *node,
    }
}
