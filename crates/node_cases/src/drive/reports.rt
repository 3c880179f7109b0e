//! What nodes of a story tell.
use crate::drive::standing::{Standing, standing_of};
use crate::stories::fault::Fault;
use crate::stories::words::{cut, number};
use bouncer_tower::TowerEffect;
use buffer_commands::Effect;
use buffer_lines::Shown;
use driver::TowerReport;
use irc_line::Line;
use machine_laws::single;
use node_notes::Report;
use node_steps::Refusal;
use raft_log::NodeId;
use raft_node::NodeFault;
use request_once::Answer;
use session_fence::FenceEffect;
use std::alloc::Global;
use upstream_claim::ClaimsEffect;
use wire_bytes::{Origin, SessionId};

/// A node's report of how it stands and how far its worker is, with no effect.
pub fn report(alloc: Global, node: NodeId, standing: Standing) -> TowerReport {
    let fault = if standing.is_refused {
        Some(NodeFault::Refused(Refusal::NoLeader))
    } else {
        None
    };
    Report {
        node,
        status: standing.status,
        effects: Vec::new(alloc),
        progress: standing.progress,
        fault,
    }
}

/// A report of a node that follows, by which a client of its first run is shown a line; the text has the client's
/// number and the line.
pub fn showing(alloc: Global, node: NodeId, text: &[u8]) -> Result<TowerReport, Fault> {
    let (digits, line) = cut(text);
    let origin = Origin::new(node.value(), 1, number(digits)?);
    let shown = Effect::Show(origin, Shown::of_line(&Line::parse(alloc, line)?)?);
    telling(alloc, node, of_buffers(shown))
}

/// A report of a node that follows, by which the buffers close the client of this number of its first run.
pub fn closing(alloc: Global, node: NodeId, digits: &[u8]) -> Result<TowerReport, Fault> {
    let origin = Origin::new(node.value(), 1, number(digits)?);
    telling(alloc, node, of_buffers(Effect::Close(origin)))
}

/// A report of a node that follows, by which requests of a client of its first run are done; the text has the client's
/// number, and that of the last of them.
pub fn doing(alloc: Global, node: NodeId, text: &[u8]) -> Result<TowerReport, Fault> {
    let (digits, last) = cut(text);
    let origin = Origin::new(node.value(), 1, number(digits)?);
    telling(alloc, node, Answer::Done(origin, number(last)?))
}

/// A report of a node that leads, by which a session of it joins this channel again.
pub fn rejoining(alloc: Global, node: NodeId, channel: &[u8]) -> Result<TowerReport, Fault> {
    let mut join = Vec::from_slice(alloc, b"JOIN ")?;
    join.extend_from_slice(channel)?;
    let line = Line::parse(alloc, join.as_slice())?;
    let joins = FenceEffect::Rejoin(SessionId::new(1, 1), line);
    let effects = single(alloc, Answer::Effect(ClaimsEffect::Inner(joins)))?;
    let standing = standing_of(b"leads", b"")?;
    Ok(Report {
        effects,
        ..report(alloc, node, standing)
    })
}

/// An effect of the buffers, as a node tells it.
fn of_buffers(effect: Effect) -> TowerEffect {
    Answer::Effect(ClaimsEffect::Inner(FenceEffect::Inner(effect)))
}

/// A report of a node that follows, with this effect.
fn telling(alloc: Global, node: NodeId, effect: TowerEffect) -> Result<TowerReport, Fault> {
    let effects = single(alloc, effect)?;
    let standing = standing_of(b"follows", b"")?;
    Ok(Report {
        effects,
        ..report(alloc, node, standing)
    })
}
