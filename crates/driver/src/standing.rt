//! The state of the nodes, in words.
ghost use Rattle.std.specs.Prelude.{◌≡◌, ◌++◌, IfOk, OnOk, is_some};
ghost use Rattle.driver.specs.Leading.{is_that};
ghost use Rattle.driver.specs.Standing.{client_text, log_text, name_text, node_text, node_texts, nodes_text, state_words};

use crate::driver::session::is_that;
use crate::link::missing::push_number;
use crate::node_monitor::NodeMonitor;
use irc_line::Name;
use raft_log::NodeId;
use std::alloc::{AllocError, Global};
use wire_bytes::Origin;

/// The state of these nodes, of which this one leads, if one does.
pub fn nodes_text(
    alloc: Global,
    leader: &Option<NodeId>,
    monitors: &[NodeMonitor],
) -> Result<Vec<u8>, AllocError>
    ensures { IfOk result (λ text. text.items ≡ nodes_text leader.now monitors.now) }
{
    let mut text = Vec::from_slice(alloc, b"The nodes:")?;
    push_nodes(&mut text, leader, monitors)?;
    Ok(text)
}

/// Appends the state of these nodes.
#[tactic(auto, unfolding(crate::specs::Standing::node_texts))]
fn push_nodes(
    out: &mut Vec<u8>,
    leader: &Option<NodeId>,
    monitors: &[NodeMonitor],
) -> Result<(), AllocError>
    ensures { OnOk result (out.new.items ≡ out.old.items ++ node_texts leader.now monitors.now) }
{
    match monitors {
        [] => Ok(()),
        [monitor, more @ ..] => {
            push_node(out, leader, monitor)?;
            push_nodes(out, leader, more)
        }
    }
}

/// Appends the state of a node.
fn push_node(
    out: &mut Vec<u8>,
    leader: &Option<NodeId>,
    monitor: &NodeMonitor,
) -> Result<(), AllocError>
    ensures { OnOk result (out.new.items ≡ out.old.items ++ node_text leader.now monitor.now) }
{
    let leads = is_that(leader, monitor.id());
    let is_up = monitor.boot().is_some();
    out.extend_from_slice(b" ")?;
    out.push(b'0' + monitor.id().value())?;
    out.extend_from_slice(state_words(leads, monitor.is_hanging(), is_up))?;
    Ok(())
}

/// The state of a node that leads or not, hangs or not, and is up or not.
fn state_words(leads: bool, hangs: bool, is_up: bool) -> &'static [u8]
    ensures { result.now ≡ state_words leads hangs is_up }
{
    if leads {
        b" leads."
    } else if hangs {
        b" does not answer."
    } else if is_up {
        b" is up."
    } else {
        b" is down."
    }
}

/// How full the log is if the leading node has this many entries, if one leads.
pub fn log_text(alloc: Global, entries: Option<u64>) -> Result<Vec<u8>, AllocError>
    ensures { IfOk result (λ text. text.items ≡ log_text entries) }
{
    let Some(entries) = entries else {
        return Ok(Vec::from_slice(alloc, b"No node leads: nothing is agreed.")?);
    };
    let mut text = Vec::from_slice(alloc, b"The log: ")?;
    push_number(&mut text, entries)?;
    text.extend_from_slice(b" of 1000000 entries.")?;
    Ok(text)
}

/// A client of this origin: its number, its name, if it has one, and its node.
pub fn client_text(
    alloc: Global,
    origin: Origin,
    name: &Option<Name>,
) -> Result<Vec<u8>, AllocError>
    ensures { IfOk result (λ text. text.items ≡ client_text origin name.now) }
{
    let mut text = Vec::from_slice(alloc, b"Client ")?;
    push_number(&mut text, origin.client())?;
    push_name(&mut text, name)?;
    text.extend_from_slice(b", at node ")?;
    text.push(b'0' + origin.node())?;
    text.extend_from_slice(b".")?;
    Ok(text)
}

/// Appends the name of a client, if it has one.
fn push_name(out: &mut Vec<u8>, name: &Option<Name>) -> Result<(), AllocError>
    ensures { OnOk result (out.new.items ≡ out.old.items ++ name_text name.now) }
{
    match name {
        None => out.extend_from_slice(b" has no name")?,
        Some(name) => {
            out.extend_from_slice(b" is ")?;
            out.extend_from_slice(name.as_bytes())?;
        }
    }
    Ok(())
}
