//! Events that happen to three cells of one ether, in one thread.
use crate::walks::inputs::{own_input, place_of};
use crate::walks::opening::three;
use crate::walks::seat::{Seat, Settled};
use buffer_commands::WireLine;
use irc_line::Name;
use machine_laws::{Hosted, Machine, Marking};
use node_cells::{NodeRecord, Upstream};
use raft_log::GroupSize;
use recorder::{Words, parse_events};
use records::run_text;
use setup_spelling::WireSetup;
use stable_store::Stable;
use std::alloc::{AllocError, Global};
use std::test::Fail;
use world_events::{Event, Input};
use world_lines::{Spelled, named_by};

/// The events of a text happen to three cells, and all are closed: the text of the record file of that run. Allocations
/// may be refused in what this node does.
///
/// `deliver 2 1` is of what lies in the mailbox from node 2 to node 1.
pub fn walk_cells<M>(
    alloc: Global,
    setup: &M::Setup,
    spelled: &WireSetup,
    text: &[u8],
    tried: u8,
) -> Result<Vec<u8>, Fail>
where
    M: Marking<Line = WireLine, Target = Name>,
    M::Effect: Words + Drop,
    M::Played: Spelled + Drop,
{
    let Some(size) = GroupSize::new(3) else {
        return Err(Fail::from("no such size"));
    };
    let events = parse_events::<M::Command>(alloc, text)?;
    let mut seats = three::<M>(alloc, size, setup, tried)?;
    for event in &events {
        happen(alloc, &mut seats, event)?;
    }
    let records = closed(alloc, seats)?;
    Ok(run_text::<M>(alloc, size, spelled, records)?)
}

/// An event happens.
fn happen<M: Marking, S: Stable<M::Command>, U: Upstream>(
    alloc: Global,
    seats: &mut [Seat<M, S, U>],
    event: &Event<M::Command, M::Line, M::Target>,
) -> Result<(), Fail> {
    let node = place_of(named_by(event).value() as u64, seats.len())?;
    match event {
        Event::Does(Input::Deliver(_, to)) => {
            let to = place_of(*to, seats.len())?;
            let Some(seat) = seats.get_mut(to) else {
                return Err(Fail::from("no such node"));
            };
            seat.deliver(node as u64)?;
            Ok(())
        }
        Event::Does(input) => turn(alloc, &mut seats[node], input),
        Event::Restart(_) => seats[node].restart(),
        Event::StopIn(_, _) => Err(Fail::from("no stops here")),
    }
}

/// A turn of an input other than a delivery or a look, and a second one where that was refused.
fn turn<M: Marking, S: Stable<M::Command>, U: Upstream>(
    alloc: Global,
    seat: &mut Seat<M, S, U>,
    input: &Input<M::Command, M::Line, M::Target>,
) -> Result<(), Fail> {
    let first = own_input(alloc, input)?;
    if seat.turn(first)? == Settled::No {
        let second = own_input(alloc, input)?;
        seat.turn(second)?;
    }
    Ok(())
}

/// The records of all cells, in order.
fn closed<M: Marking, S: Stable<M::Command>, U: Upstream>(
    alloc: Global,
    seats: Vec<Seat<M, S, U>>,
) -> Result<Vec<NodeRecord<M::Command, M::Line, M::Target, M::Effect, M::Played>>, AllocError> {
    let mut records = Vec::new(alloc);
    for seat in seats {
        records.push(seat.close())?;
    }
    Ok(records)
}
