//! What is done with the nodes of a cluster.
use crate::running::bursts::{ask_at_once, ask_while_busy, wait_twice};
use crate::running::client::Client;
use crate::running::clusters::{Counter, Crew, parts};
use crate::running::confirming::confirmed_lines;
use crate::running::gates::Hold;
use crate::running::inputs::Inputs;
use crate::running::meeting::turn_both;
use crate::running::runs::{hold, run};
use buffer_commands::{Setup, WireLine};
use irc_line::Name;
use machine_laws::{Hosted, Machine, Marking};
use node_cells::{NodeRecord, Recording};
use node_threads::{Beats, Gate, Outlet};
use raft_log::GroupSize;
use recorder::Words;
use records::run_text;
use setup_spelling::WireSetup;
use std::alloc::Global;
use std::rt::Clock;
use std::sync::Wait;
use std::test::Fail;
use std::thread::Threads;
use world_lines::Spelled;

/// What is done with the nodes of a cluster.
#[derive(Drop)]
pub enum Story {
    /// One input is given to node 1 and one to node 2, and both are turned.
    Meet,
    /// A line is said at node 1 while the gate holds node 3, which then is let go and looked at.
    Confirm(Client, Hold),
    /// Node 1 leads, and the client of node 2 asks for so many lines at once.
    Burst(Client, u8),
    /// Node 1 leads and is busy, and the client of node 2 asks; the counter is of node 1's turns.
    Busy(Client, Counter),
    /// Node 1 leads and node 2 knows it, and is told twice that it waited too long for a leader.
    Wait,
    /// Node 1 leads, two clients ask, and then node 3 is started again and looked at.
    Record([Client; 2]),
}

/// What came of it, before the cluster stopped.
#[derive(Drop)]
pub enum Told {
    /// The lines that were played, each with LF.
    Lines(Vec<u8>),
    /// How long the log of node 1 is to be.
    Log(u64),
    /// What was submitted to the first nodes.
    Submitted([Inputs; 3]),
}

/// What comes of a story in a cluster over new stores: the lines that it was about, or where it is
/// recorded the text of its record. Each input has to be recorded as often as it was submitted, and
/// none where nothing is recorded.
///
/// All stories go by this one call, since what it asks of a machine's types is dear to show.
pub fn play<M, R, O, G>(
    rt: &R,
    alloc: Global,
    size: GroupSize,
    setup: &WireSetup,
    outlets: Vec<O>,
    gate: G,
    story: Story,
) -> Result<Vec<u8>, Fail>
where
    R: Threads + Wait + Clock + Sync + Send + Copy + 'static,
    G: Gate + Drop + Send + Sync + 'static,
    O: Outlet<M::Effect> + Send + 'static,
    M: Marking<Setup = Setup, Line = WireLine, Target = Name> + Send + Sync + 'static,
    M::Command: Send + Sync + 'static,
    M::Effect: Words + Send + Sync + 'static,
    M::Played: Spelled + Send + Sync + 'static,
    M::Action: Send + Sync + 'static,
{
    let recording = match &story {
        Story::Record(_) => Recording::On,
        _ => Recording::Off,
    };
    let beats = match &story {
        Story::Burst(_, _) => Beats::OnNews,
        _ => Beats::WhenTold,
    };
    let parts = parts::<M, O>(alloc, outlets)?;
    let crew = Crew::<M>::start(
        rt,
        alloc,
        size,
        setup.setup(),
        parts,
        gate,
        recording,
        beats,
    )?;
    let told = match story {
        Story::Meet => turn_both(rt, alloc, &crew),
        Story::Confirm(client, hold) => confirmed_lines(rt, alloc, &crew, client, hold),
        Story::Burst(client, count) => ask_at_once(rt, alloc, &crew, client, count),
        Story::Busy(client, turns) => ask_while_busy(rt, alloc, &crew, client, turns),
        Story::Wait => wait_twice(rt, alloc, &crew),
        Story::Record(clients) => run(rt, alloc, &crew, clients),
    };
    let records = crew.stop(rt);
    written::<M>(alloc, size, setup, records, told?)
}

/// What is told of a story whose records are these.
fn written<M>(
    alloc: Global,
    size: GroupSize,
    setup: &WireSetup,
    records: Vec<NodeRecord<M::Command, WireLine, Name, M::Effect, M::Played>>,
    told: Told,
) -> Result<Vec<u8>, Fail>
where
    M: Hosted<Line = WireLine, Target = Name>,
    M::Effect: Words,
    M::Played: Spelled,
{
    match told {
        Told::Lines(lines) => {
            if records.iter().any(|record| !record.turns.is_empty()) {
                return Err(Fail::from("a turn was recorded"));
            }
            Ok(lines)
        }
        Told::Log(last) => match records.first() {
            Some(record) if record.state.log.value() == last => Ok(Vec::new(alloc)),
            _ => Err(Fail::from("the log has more or fewer entries")),
        },
        Told::Submitted(inputs) => {
            if !hold::<M>(alloc, records.as_slice(), &inputs)? {
                return Err(Fail::from("an input is not recorded as often as it was submitted"));
            }
            Ok(run_text::<M>(alloc, size, setup, records)?)
        }
    }
}
