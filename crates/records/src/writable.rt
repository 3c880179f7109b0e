//! That whatever happens to a node can be encoded: the types of its values keep their limits.
ghost use Rattle.std.specs.Prelude.{◌≡◌};
ghost use Rattle.recorder.specs.InputReadings.{IsWritable, IsWritableInput};
ghost use Rattle.records.specs.RecordText.{AreWritableTurns};

use crate::record::Turn;
use buffer_commands::WireLine;
use irc_line::Name;
use machine_laws::{Hosted, Machine};
use wire_bytes::Wire;
use world_events::{Event, Input};

/// Does nothing. Each turn's event can be encoded.
pub fn turns_are_writable<M: Hosted, O>(turns: &[Turn<Event<M::Command, WireLine, Name>, O>])
    ensures { AreWritableTurns M.Command.spelled M.Command.fits turns.now }
{
    for turn in turns {
        event_is_writable::<M>(&turn.event);
    }
}

/// Does nothing.
fn event_is_writable<M: Hosted>(event: &Event<M::Command, WireLine, Name>)
    ensures { IsWritable M.Command.spelled M.Command.fits event.now }
{
    match event {
        Event::Does(input) => input_is_writable::<M>(input),
        Event::Restart(node) => {
            node.value();
        }
        Event::StopIn(input, _) => input_is_writable::<M>(input),
    }
}

/// Does nothing.
fn input_is_writable<M: Hosted>(input: &Input<M::Command, WireLine, Name>)
    ensures { IsWritableInput M.Command.spelled M.Command.fits input.now }
{
    match input {
        Input::Timeout(node) => {
            node.value();
        }
        Input::Beat(node) => {
            node.value();
        }
        Input::Opened(node) => {
            node.value();
        }
        Input::Closed(node) => {
            node.value();
        }
        Input::Claim(node) => {
            node.value();
        }
        Input::Apply(node) => {
            node.value();
        }
        Input::Deliver(node, number) => {
            let _number = *number;
            node.value();
        }
        Input::Ask(node, body) => {
            node.value();
            M::fits(body);
        }
        Input::Heard(node, at, line) => {
            node.value();
            at.seconds();
            line.fits();
        }
        Input::Look(node, place, target) => {
            let _place = *place;
            node.value();
            target.as_bytes();
        }
    }
}
