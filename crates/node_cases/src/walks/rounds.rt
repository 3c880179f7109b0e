//! Rounds of inputs that a leader saves at once, over journals of which one call of a disk fails.
ghost use Rattle.std.specs.Prelude.{◌≡◌, None, true};
ghost use Rattle.raft_log.specs.Node.{is_leader};
ghost use Rattle.raft_log.specs.Positions.{role_of};
ghost use Rattle.world_views.specs.Views.{carries};

use crate::walks::inputs::{first_inputs, own_input, place_of};
use crate::walks::journals::{JournalCell, three};
use buffer_commands::WireLine;
use irc_line::Name;
use machine_laws::{Hosted, Machine, Marking};
use node_cells::{CellFault, NodeCell, Upstream};
use raft_log::{GroupSize, NodeId, Position};
use raft_node::{Cause, NodeFault};
use recorder::{Words, parse_events, push_number};
use records::run_text;
use setup_spelling::WireSetup;
use stable_store::Stable;
use std::alloc::Global;
use std::test::Fail;
use world_events::{Event, Input};
use world_lines::{Spelled, named_by};
use world_views::NodeInput;

/// More calls of a disk than the run of a case comes to.
const MOST_CALLS: usize = 40;

/// What a round came to.
#[derive(Clone, Copy, PartialEq, Eq)]
enum Came {
    /// All of it was saved.
    Saved,
    /// The node went down in its save, and was started again.
    Down,
    /// The node did not lead.
    Idle,
}

/// The texts of a case: what comes before the round, what goes into it, and what comes behind it.
#[derive(Clone, Copy)]
pub struct Case<'a> {
    pub before: &'a [u8],
    pub round: &'a [u8],
    pub behind: &'a [u8],
}

/// For each length of the round, and each call of node 1's disk that fails alone: a line that says the length, the call and
/// what the round came to, and the record of the run. Nothing where no node could be opened.
pub fn walk_rounds<M>(
    alloc: Global,
    setup: &M::Setup,
    spelled: &WireSetup,
    case: &Case<'_>,
    longest: usize,
) -> Result<Vec<u8>, Fail>
where
    M: Marking<Line = WireLine, Target = Name>,
    M::Effect: Words + Drop,
    M::Played: Spelled + Drop,
{
    let mut out = Vec::new(alloc);
    for count in 0..longest {
        for call in 0..MOST_CALLS {
            push_run::<M>(alloc, setup, spelled, case, count + 1, call, &mut out)?;
        }
    }
    Ok(out)
}

/// Appends the run of a round of this length, in which this call fails.
fn push_run<M>(
    alloc: Global,
    setup: &M::Setup,
    spelled: &WireSetup,
    case: &Case<'_>,
    count: usize,
    call: usize,
    out: &mut Vec<u8>,
) -> Result<(), Fail>
where
    M: Marking<Line = WireLine, Target = Name>,
    M::Effect: Words + Drop,
    M::Played: Spelled + Drop,
{
    let size = GroupSize::new(3).ok_or("size")?;
    let Some(mut cells) = three::<M>(alloc, size, setup, call)? else {
        return Ok(());
    };
    happen_all(alloc, &mut cells, case.before)?;
    let events = parse_events::<M::Command>(alloc, case.round)?;
    let came = round(alloc, &mut cells, &events, count)?;
    happen_all(alloc, &mut cells, case.behind)?;
    push_head(out, count, call, came)?;
    let mut records = Vec::new(alloc);
    for cell in cells {
        records.push(cell.close())?;
    }
    out.extend_from_slice(&run_text::<M>(alloc, size, spelled, records)?)?;
    Ok(())
}

fn push_head(out: &mut Vec<u8>, count: usize, call: usize, came: Came) -> Result<(), Fail> {
    out.extend_from_slice(b"== ")?;
    push_number(out, count as u64)?;
    out.extend_from_slice(b" ")?;
    push_number(out, call as u64)?;
    out.extend_from_slice(match came {
        Came::Saved => b" saved\n",
        Came::Down => b" down\n",
        Came::Idle => b" idle\n",
    })?;
    Ok(())
}

/// The first so many inputs come to node 1 as one round.
fn round<M>(
    alloc: Global,
    cells: &mut [JournalCell<M>],
    events: &[Event<M::Command, WireLine, Name>],
    count: usize,
) -> Result<Came, Fail>
where
    M: Marking<Line = WireLine, Target = Name>,
{
    let inputs = first_inputs(alloc, NodeId::new(1), events, count)?;
    let Some(cell) = cells.first_mut() else {
        return Err(Fail::from("no node"));
    };
    if !leads(cell) || inputs.is_empty() {
        return Ok(Came::Idle);
    }
    match cell.turn_all(inputs) {
        Ok(_answers) => Ok(Came::Saved),
        Err(fault) => {
            again(cell, fault)?;
            Ok(Came::Down)
        }
    }
}

/// Whether the node of a cell leads.
fn leads<M: Marking, S: Stable<M::Command>, U: Upstream>(cell: &NodeCell<M, S, U>) -> bool
    ensures { result ≡ true
        → is_leader (role_of cell.now.parts.node.state.standing.position) ≡ true }
{
    match cell.state().standing.position {
        Position::Leader(_) => true,
        Position::Follower(_) | Position::Candidate => false,
    }
}

/// The events of a text happen. `deliver 2 1` is of what lies in the mailbox from node 2 to node 1, if something does.
fn happen_all<M>(alloc: Global, cells: &mut [JournalCell<M>], text: &[u8]) -> Result<(), Fail>
where
    M: Marking<Line = WireLine, Target = Name>,
{
    for event in &parse_events::<M::Command>(alloc, text)? {
        happen(alloc, cells, event)?;
    }
    Ok(())
}

/// An event other than a restart, a stop or a look happens.
fn happen<M: Marking, S: Stable<M::Command>, U: Upstream>(
    alloc: Global,
    cells: &mut [NodeCell<M, S, U>],
    event: &Event<M::Command, M::Line, M::Target>,
) -> Result<(), Fail> {
    let node = place_of(named_by(event).value() as u64, cells.len())?;
    match event {
        Event::Does(Input::Deliver(_, to)) => {
            let to = place_of(*to, cells.len())?;
            match cells.get_mut(to) {
                Some(cell) => deliver(cell, node as u64),
                None => Err(Fail::from("no such node")),
            }
        }
        Event::Does(input) => {
            let input = own_input(alloc, input)?;
            match cells.get_mut(node) {
                Some(cell) => turn(cell, input),
                None => Err(Fail::from("no such node")),
            }
        }
        Event::Restart(_) | Event::StopIn(_, _) => Err(Fail::from("no such event here")),
    }
}

/// A turn of this input. A node that goes down in it is started again.
fn turn<M: Marking, S: Stable<M::Command>, U: Upstream>(
    cell: &mut NodeCell<M, S, U>,
    input: NodeInput<M::Command, M::Line>,
) -> Result<(), Fail>
    requires { carries input ≡ None }
{
    match cell.turn(input) {
        Ok(_output) => Ok(()),
        Err(fault) => again(cell, fault),
    }
}

/// What lies in the mailbox from the node at this place, from 0 on, comes, if something does. A node that goes down in it
/// is started again.
fn deliver<M: Marking, S: Stable<M::Command>, U: Upstream>(
    cell: &mut NodeCell<M, S, U>,
    from: u64,
) -> Result<(), Fail> {
    if from >= cell.size().value() as u64 {
        return Err(Fail::from("no such node"));
    }
    match cell.deliver(from) {
        Ok(_output) => Ok(()),
        Err(fault) => again(cell, fault),
    }
}

/// A node that went down because its store failed is started again. One that refused what came stays as it is.
fn again<M: Marking, S: Stable<M::Command>, U: Upstream>(
    cell: &mut NodeCell<M, S, U>,
    fault: CellFault,
) -> Result<(), Fail> {
    match fault {
        CellFault::Node(NodeFault::Refused(_)) => Ok(()),
        CellFault::Node(NodeFault::Down(Cause::Store)) => {
            if cell.restart().is_ok() {
                return Ok(());
            }
            // the call that fails may be one of the first start
            Ok(cell.restart()?)
        }
        _ => Err(Fail::from("another fault than that of the store")),
    }
}
