//! Runs that are recorded.
use crate::running::client::{Client, Pace, ask_all};
use crate::running::clusters::{Crew, lead};
use crate::running::inputs::Inputs;
use crate::running::story::Told;
use irc_line::Name;
use machine_laws::{Hosted, Machine, Marking};
use node_cells::NodeRecord;
use raft_log::NodeId;
use std::alloc::Global;
use std::rt::Clock;
use std::sync::Wait;
use std::test::Fail;

/// Node 1 leads, each client asks for its requests, and then node 3 is started again and looked at.
/// Gives what was submitted to the nodes 1, 2 and 3.
pub fn run<M, R>(rt: &R, alloc: Global, crew: &Crew<M>, clients: [Client; 2]) -> Result<Told, Fail>
where
    R: Wait + Clock,
    M: Marking<Target = Name>,
{
    let mut clients = clients;
    let timeouts = lead(rt, crew)?;
    let beats = ask_all(rt, alloc, crew, clients.as_mut_slice(), Pace::Fast)?;
    let third = again(rt, alloc, crew)?;
    let first = Inputs {
        timeouts,
        beats,
        ..clients[0].submitted
    };
    Ok(Told::Submitted([first, clients[1].submitted, third]))
}

/// Node 3 is started again and looked at: what was submitted to it.
fn again<M, R>(rt: &R, alloc: Global, crew: &Crew<M>) -> Result<Inputs, Fail>
where
    R: Wait,
    M: Marking<Target = Name>,
{
    let last = NodeId::new(3);
    let target = Name::from_bytes(Vec::from_slice(alloc, b"#x")?).ok_or("name")?;
    crew.node(last)?.restart(rt)?;
    crew.node(last)?.look(rt, 0, target)?;
    Ok(Inputs {
        restarts: 1,
        looks: 1,
        ..Inputs::none()
    })
}

/// Whether these records hold what was submitted to the first nodes, and of the others none.
pub fn hold<M: Hosted>(
    alloc: Global,
    records: &[NodeRecord<M::Command, M::Line, M::Target, M::Effect, M::Played>],
    submitted: &[Inputs],
) -> Result<bool, Fail> {
    for (i, record) in records.iter().enumerate() {
        let wanted = match submitted.get(i) {
            Some(inputs) => *inputs,
            None => Inputs::none(),
        };
        if Inputs::of::<M>(alloc, record)? != wanted {
            return Ok(false);
        }
    }
    Ok(records.len() >= submitted.len())
}
