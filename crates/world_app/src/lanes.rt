//! The nodes' lanes.
ghost use Rattle.std.specs.Prelude.{◌≡◌, ◌++◌, IfOk, OnOk};
ghost use Rattle.raft_log.specs.declared.role.Role.TheVariants.{Follower};
ghost use Rattle.world_app.specs.Picture.{begun, ended, lane, line_from, name, role_behind, same_role, segment};

use crate::diagram::{Change, Row};
use crate::marks::{lane_x, push_number, push_path_from, push_placed, row_y};
use crate::words::role_class;
use raft_log::Role;
use std::alloc::AllocError;

/// Where the names of the nodes are, from the top.
const NAME_Y: u64 = 56;

/// Appends a node's lane over these rows, the last of which has this number: a name, and a line in the colours of the
/// roles that the node had.
#[tactic(auto, unfolding(crate::specs::Picture::lane))]
pub fn push_lane(out: &mut Vec<u8>, node: u8, last: u32, rows: &[Row]) -> Result<(), AllocError>
    ensures { OnOk result (out.new.items ≡ out.old.items ++ lane last rows.now node) }
{
    push_name(out, node)?;
    push_line(out, node, last, rows)
}

/// Appends a node's name.
#[tactic(auto, unfolding(crate::specs::Picture::name))]
fn push_name(out: &mut Vec<u8>, node: u8) -> Result<(), AllocError>
    ensures { OnOk result (out.new.items ≡ out.old.items ++ name node) }
{
    push_placed(out, b"name", lane_x(node), NAME_Y)?;
    out.extend_from_slice(b"node ")?;
    push_number(out, node as u64)?;
    out.extend_from_slice(b"</text>\n")
}

/// Appends a lane's line. A node begins as a follower.
fn push_line(out: &mut Vec<u8>, node: u8, last: u32, rows: &[Row]) -> Result<(), AllocError>
    ensures { OnOk result (out.new.items ≡ out.old.items
        ++ line_from last node Follower 0 rows.now) }
{
    let mut role = Role::Follower;
    let mut since = 0;
    for row in rows {
        let next = role_behind(node, role, row.change);
        since = push_ended(out, node, role, next, since, row.number)?;
        role = next;
    }
    push_segment(out, node, role, since, last)
}

/// The role of a node after an event, given the role before it.
fn role_behind(node: u8, role: Role, change: Option<Change>) -> Role
    ensures { result ≡ role_behind node role change }
{
    match change {
        Some(change) => if change.node == node {
            change.after.role
        } else {
            role
        },
        None => role,
    }
}

/// Appends the line that ends at a row if the role changes, and returns where the line begins that continues from
/// there.
fn push_ended(
    out: &mut Vec<u8>,
    node: u8,
    role: Role,
    next: Role,
    since: u32,
    row: u32,
) -> Result<u32, AllocError>
    ensures text { OnOk result (out.new.items ≡ out.old.items ++ ended node role next since row) }
    ensures begun { IfOk result (λ from. from ≡ begun role next since row) }
{
    if same_role(role, next) {
        return Ok(since);
    }
    push_segment(out, node, role, since, row)?;
    Ok(row)
}

/// Whether roles are the same.
pub fn same_role(one: Role, other: Role) -> bool
    ensures { result ≡ same_role one other }
{
    match (one, other) {
        (Role::Follower, Role::Follower) => true,
        (Role::Candidate, Role::Candidate) => true,
        (Role::Leader, Role::Leader) => true,
        _ => false,
    }
}

/// Appends a lane's line from one row to another.
#[tactic(auto, unfolding(crate::specs::Picture::segment))]
fn push_segment(
    out: &mut Vec<u8>,
    node: u8,
    role: Role,
    since: u32,
    until: u32,
) -> Result<(), AllocError>
    ensures { OnOk result (out.new.items ≡ out.old.items ++ segment node role since until) }
{
    push_path_from(out, role_class(role), lane_x(node), row_y(since))?;
    out.extend_from_slice(b"V")?;
    push_number(out, row_y(until))?;
    out.extend_from_slice(b"'/>\n")
}
