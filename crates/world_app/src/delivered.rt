//! Messages that are delivered.
ghost use Rattle.std.specs.Prelude.{◌≡◌, option_map};
ghost use Rattle.raft_log.specs.Lists.{item};
ghost use Rattle.agreement.specs.World.{sent_of};
ghost use Rattle.world_run.specs.Groups.{nodes_in};
ghost use Rattle.world_app.specs.Delivered.{arrow_in, delivery_by, node_in, node_of};

use crate::diagram::Arrow;
use crate::kinds::MessageKind;
use crate::naming::{delivery_of, kind_of};
use crate::places::index_of;
use crate::sending_rows::sending_row;
use machine_laws::Hosted;
use raft_log::NodeId;
use world_events::{Event, Input};
use world_run::Cell;

/// The receiver of a message, and the message's kind.
#[derive(Clone, Copy)]
pub struct Delivery {
    pub addressee: u8,
    pub kind: MessageKind,
}

/// The arrow of the message that the event of this number delivers, if there is one.
pub fn arrow_of<M: Hosted>(
    cells: &[Cell<M>],
    rows: &[Vec<u32>],
    number: u32,
    event: &Event<M::Command, M::Line, M::Target>,
) -> Option<Arrow>
    ensures { result ≡ arrow_in (nodes_in cells.now) rows.now number event.now }
{
    let (sender, message) = delivery_of(event)?;
    let delivery = delivery_at(cells, sender, message)?;
    let sent = sending_row(rows, sender, message)?;
    Some(Arrow {
        sender: sender.value(),
        number: message,
        addressee: delivery.addressee,
        kind: delivery.kind,
        sent,
        delivered: number,
    })
}

/// The receiver and the kind of the message of this number, among those that a node sent.
fn delivery_at<M: Hosted>(cells: &[Cell<M>], sender: NodeId, number: u64) -> Option<Delivery>
    ensures { result ≡ option_map delivery_by (sent_of (item (nodes_in cells.now) sender) number) }
{
    let node = index_of(sender.value() as u64, cells.len())?;
    let sent = cells[node].sent();
    let index = index_of(number, sent.len())?;
    let message = &sent[index];
    Some(Delivery {
        addressee: message.to,
        kind: kind_of(&message.kind),
    })
}

/// The node to which an event happens; 0 if there is no such message.
pub fn node_of<M: Hosted>(cells: &[Cell<M>], event: &Event<M::Command, M::Line, M::Target>) -> u8
    ensures { result ≡ node_of (nodes_in cells.now) event.now }
{
    match event {
        Event::Does(input) => node_in(cells, input),
        Event::Restart(node) => node.value(),
        Event::StopIn(input, _) => node_in(cells, input),
    }
}

/// The node to which an input happens; 0 if there is no such message.
fn node_in<M: Hosted>(cells: &[Cell<M>], input: &Input<M::Command, M::Line, M::Target>) -> u8
    ensures { result ≡ node_in (nodes_in cells.now) input.now }
{
    match input {
        Input::Timeout(node) => node.value(),
        Input::Beat(node) => node.value(),
        Input::Deliver(sender, number) => match delivery_at(cells, *sender, *number) {
            Some(delivery) => delivery.addressee,
            None => 0,
        },
        Input::Ask(node, _) => node.value(),
        Input::Opened(node) => node.value(),
        Input::Closed(node) => node.value(),
        Input::Heard(node, _, _) => node.value(),
        Input::Claim(node) => node.value(),
        Input::Apply(node) => node.value(),
        Input::Look(node, _, _) => node.value(),
    }
}
