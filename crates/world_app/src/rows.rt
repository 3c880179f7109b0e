//! The events' rows.
ghost use Rattle.std.specs.Prelude.{◌≡◌, ◌++◌, OnOk, flat_map};
ghost use Rattle.world_app.specs.Picture.{boot_part, change_text, commit_part, dot, happened};
ghost use Rattle.world_app.specs.Picture.{happening_text, parts, role_part, row_text};

use crate::diagram::{Change, NodeView, Row};
use crate::kinds::Happening;
use crate::lanes::same_role;
use crate::marks::{lane_x, push_number, push_part, push_path_from, push_placed, row_y};
use crate::words::{happening_class, happening_deed, happening_front, role_class, role_words};
use std::alloc::AllocError;

/// Where the events' numbers end, from the left.
const NUMBER_X: u64 = 152;

/// Where `none` begins, from the left.
const NONE_X: u64 = 158;

/// How far beside its lane a text begins.
const BESIDE: u64 = 20;

/// How far below the middle of its row a text is.
const BELOW: u64 = 4;

/// Appends rows.
pub fn push_rows(out: &mut Vec<u8>, rows: &[Row]) -> Result<(), AllocError>
    ensures { OnOk result (out.new.items ≡ out.old.items ++ flat_map row_text rows.now) }
{
    for row in rows {
        push_row(out, row)?;
    }
    Ok(())
}

/// Appends an event's row.
#[tactic(auto, unfolding(crate::specs::Picture::row_text))]
fn push_row(out: &mut Vec<u8>, row: &Row) -> Result<(), AllocError>
    ensures { OnOk result (out.new.items ≡ out.old.items ++ row_text row.now) }
{
    push_placed(out, b"number", NUMBER_X, row_y(row.number) + BELOW)?;
    push_number(out, row.number as u64)?;
    out.extend_from_slice(b"</text>")?;
    push_happened(out, row.number, row.happening, &row.change)
}

/// Appends what an event was and what it changed, or that there is no such node or message.
#[tactic(auto, unfolding(crate::specs::Picture::happened))]
fn push_happened(
    out: &mut Vec<u8>,
    number: u32,
    happening: Happening,
    change: &Option<Change>,
) -> Result<(), AllocError>
    ensures { OnOk result (out.new.items ≡ out.old.items ++ happened number happening change.now) }
{
    match change {
        Some(change) => push_change(out, number, happening, change),
        None => {
            push_placed(out, b"none", NONE_X, row_y(number) + BELOW)?;
            out.extend_from_slice(b"none</text>\n")
        }
    }
}

/// Appends what an event was, and what it changed, beside its node's lane.
#[tactic(auto, unfolding(crate::specs::Picture::change_text))]
fn push_change(
    out: &mut Vec<u8>,
    number: u32,
    happening: Happening,
    change: &Change,
) -> Result<(), AllocError>
    ensures { OnOk result (out.new.items ≡ out.old.items
        ++ change_text number happening change.now) }
{
    push_dot(out, change.node, number)?;
    let x = lane_x(change.node) + BESIDE;
    push_placed(out, happening_class(happening), x, row_y(number) + BELOW)?;
    push_happening(out, happening)?;
    push_parts(out, &change.before, &change.after)?;
    out.extend_from_slice(b"</text>\n")
}

/// Appends what an event was.
#[tactic(auto, unfolding(crate::specs::Picture::happening_text))]
fn push_happening(out: &mut Vec<u8>, happening: Happening) -> Result<(), AllocError>
    ensures { OnOk result (out.new.items ≡ out.old.items ++ happening_text happening) }
{
    out.extend_from_slice(happening_front(happening))?;
    out.extend_from_slice(happening_deed(happening))
}

/// Appends what changed in a node.
#[tactic(auto, unfolding(crate::specs::Picture::parts))]
fn push_parts(out: &mut Vec<u8>, before: &NodeView, after: &NodeView) -> Result<(), AllocError>
    ensures { OnOk result (out.new.items ≡ out.old.items ++ parts before.now after.now) }
{
    push_boot(out, before, after)?;
    push_role(out, before, after)?;
    push_commit(out, before, after)
}

/// Appends an event on its node's lane.
#[tactic(auto, unfolding(crate::specs::Picture::dot))]
fn push_dot(out: &mut Vec<u8>, node: u8, number: u32) -> Result<(), AllocError>
    ensures { OnOk result (out.new.items ≡ out.old.items ++ dot node number) }
{
    push_path_from(out, b"dot", lane_x(node), row_y(number))?;
    out.extend_from_slice(b"h0'/>")
}

/// Appends the run that a node begins.
#[tactic(auto, unfolding(crate::specs::Picture::boot_part))]
fn push_boot(out: &mut Vec<u8>, before: &NodeView, after: &NodeView) -> Result<(), AllocError>
    ensures { OnOk result (out.new.items ≡ out.old.items ++ boot_part before.now after.now) }
{
    if before.boot == after.boot {
        return Ok(());
    }
    push_part(out, b"boot", b"boot ", after.boot)
}

/// Appends the role that a node takes, if it is another one or in another term.
#[tactic(auto, unfolding(crate::specs::Picture::role_part))]
fn push_role(out: &mut Vec<u8>, before: &NodeView, after: &NodeView) -> Result<(), AllocError>
    ensures { OnOk result (out.new.items ≡ out.old.items ++ role_part before.now after.now) }
{
    if same_role(before.role, after.role) && before.term == after.term {
        return Ok(());
    }
    push_part(
        out,
        role_class(after.role),
        role_words(after.role),
        after.term,
    )
}

/// Appends the place up to which a node commits now, if it is a later one.
#[tactic(auto, unfolding(crate::specs::Picture::commit_part))]
fn push_commit(out: &mut Vec<u8>, before: &NodeView, after: &NodeView) -> Result<(), AllocError>
    ensures { OnOk result (out.new.items ≡ out.old.items ++ commit_part before.now after.now) }
{
    if before.commit < after.commit {
        return push_part(out, b"commit", b"commits ", after.commit);
    }
    Ok(())
}
