//! The diagram of a list of events.
ghost use Rattle.std.specs.Prelude.{◌≡◌, ◌++◌, IfOk, OnOk};
ghost use Rattle.world_run.specs.Groups.{IsGroup, nodes_in};
ghost use Rattle.world_run.specs.Told.{event_of};
ghost use Rattle.world_run.specs.World.{happens};
ghost use Rattle.world_app.specs.Delivered.{arrow_in, arrows_of, node_of};
ghost use Rattle.world_app.specs.Diagrams.{IsDiagramOf, row_between};

use crate::delivered::{arrow_of, node_of};
use crate::diagram::{Arrow, Diagram, Row};
use crate::naming::happening_of;
use crate::sending_rows::{no_rows, note_all};
use crate::views::{change_of, view_at};
use machine_laws::Hosted;
use raft_log::GroupSize;
use raft_node::Described;
use std::alloc::{AllocError, Global};
use std::mem::drop;
use world_events::Event;
use world_run::{Cell, Group};

/// The diagram of these events, as they happen in order to a group of this size over new stores.
///
/// More than 4,294,967,295 events have none.
pub fn diagram_of<M: Hosted>(
    alloc: Global,
    size: GroupSize,
    setup: &M::Setup,
    events: &[Event<M::Command, M::Line, M::Target>],
) -> Result<Diagram, AllocError>
    ensures { IfOk result (IsDiagramOf (⟦<M as Described>⟧.machine setup.now) size events.now) }
{
    if events.len() > u32::MAX as usize {
        return Err(AllocError);
    }
    let mut group: Group<M> = Group::start(alloc, size, setup)?;
    let mut sending_rows = no_rows(alloc, group.cells.len())?;
    let mut rows = Vec::new(alloc);
    let mut arrows = Vec::new(alloc);
    for (place, event) in events.iter().enumerate() {
        let number = place as u32 + 1;
        push_arrow(&mut arrows, &group.cells, &sending_rows, number, event)?;
        let row = row_of(&mut group, number, event)?;
        rows.push(row)?;
        note_all(&mut sending_rows, &group.cells, number)?;
    }
    Ok(Diagram {
        size: size.value(),
        last: events.len() as u32,
        rows,
        arrows,
    })
}

/// Appends the arrow of what the event of this number delivers, if it delivers anything.
fn push_arrow<M: Hosted>(
    arrows: &mut Vec<Arrow>,
    cells: &[Cell<M>],
    sending_rows: &[Vec<u32>],
    number: u32,
    event: &Event<M::Command, M::Line, M::Target>,
) -> Result<(), AllocError>
    ensures { OnOk result (arrows.new.items ≡ arrows.old.items
        ++ arrows_of (arrow_in (nodes_in cells.now) sending_rows.now number event.now)) }
{
    match arrow_of(cells, sending_rows, number, event) {
        Some(arrow) => Ok(arrows.push(arrow)?),
        None => Ok(()),
    }
}

/// The event of this number, which gets this row, happens.
fn row_of<M: Hosted>(
    group: &mut Group<M>,
    number: u32,
    event: &Event<M::Command, M::Line, M::Target>,
) -> Result<Row, AllocError>
    requires { IsGroup group.old.setup group.old.size group.old.cells.items }
    ensures same { (group.new.setup ≡ group.old.setup) × (group.new.size ≡ group.old.size) }
    ensures group { IfOk result
        (λ _. IsGroup group.old.setup group.old.size group.new.cells.items) }
    ensures nodes { IfOk result (λ _. nodes_in group.new.cells.items
        ≡ happens (⟦<M as Described>⟧.machine group.old.setup) (nodes_in group.old.cells.items)
        (event_of (⟦<M as Described>⟧.machine group.old.setup) event.now)) }
    ensures row { IfOk result (λ row. row ≡ row_between number event.now
        (node_of (nodes_in group.old.cells.items) event.now)
        (nodes_in group.old.cells.items) (nodes_in group.new.cells.items)) }
{
    let node = node_of(&group.cells, event);
    let before = view_at(&group.cells, node);
    drop(group.happen(event)?);
    let after = view_at(&group.cells, node);
    Ok(Row {
        number,
        happening: happening_of(event),
        change: change_of(node, before, after),
    })
}
