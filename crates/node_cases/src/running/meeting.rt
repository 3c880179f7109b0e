//! Two nodes whose first turns meet.
use crate::running::clusters::Crew;
use crate::running::story::Told;
use machine_laws::{Machine, Marking};
use node_notes::Note;
use raft_log::NodeId;
use std::alloc::Global;
use std::sync::Wait;
use std::test::Fail;

/// Nodes 1 and 2 waited too long for a leader. What is asked of them behind that is answered once
/// they turned it.
pub fn turn_both<M: Marking>(rt: &impl Wait, alloc: Global, crew: &Crew<M>) -> Result<Told, Fail> {
    let (first, second) = (NodeId::new(1), NodeId::new(2));
    crew.node(first)?.submit(rt, Note::Timeout(u64::MAX))?;
    crew.node(second)?.submit(rt, Note::Timeout(u64::MAX))?;
    crew.node(first)?.status(rt)?;
    crew.node(second)?.status(rt)?;
    Ok(Told::Lines(Vec::new(alloc)))
}
