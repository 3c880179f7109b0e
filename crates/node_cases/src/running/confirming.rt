//! A confirmed look at a node that is held.
use crate::running::client::{Client, Pace, ask_all};
use crate::running::clusters::{Crew, Flag, MOST_POLLS, flag, lead, rest};
use crate::running::gates::Hold;
use crate::running::story::Told;
use irc_line::Name;
use machine_laws::{Hosted, Machine, Marking};
use node_notes::Note;
use node_threads::Inlet;
use raft_log::NodeId;
use std::alloc::Global;
use std::rt::Clock;
use std::sync::atomic::Ordering;
use std::sync::{Arc, Wait};
use std::test::Fail;
use std::thread;
use std::thread::Threads;
use world_lines::Spelled;

/// How many milliseconds a confirmed look may take.
const MOST_RESTS: u64 = 3 * MOST_POLLS;

/// How many of them there are between two beats: a message that node 3 sends to node 1 is taken
/// long before it could be replaced by the answer to a beat.
const RESTS_A_BEAT: u64 = 50;

/// What a confirmed look at node 3 shows: a line is said at node 1 while the gate holds node 3, and
/// then node 3 is let go, and looked at.
pub fn confirmed_lines<M, R>(
    rt: &R,
    alloc: Global,
    crew: &Crew<M>,
    client: Client,
    hold: Hold,
) -> Result<Told, Fail>
where
    R: Threads + Wait + Clock + Sync + Send + Copy + 'static,
    M: Marking<Target = Name> + Send + Sync + 'static,
    M::Setup: Send + Sync + 'static,
    M::Command: Send + Sync + 'static,
    M::Effect: Send + Sync + 'static,
    M::Line: Send + Sync + 'static,
    M::Played: Spelled + Send + Sync + 'static,
    M::Action: Send + Sync + 'static,
{
    lead(rt, crew)?;
    ask_all(rt, alloc, crew, &mut [client], Pace::Slow)?;
    hold.is_let_go.store(true, Ordering::SeqCst);
    let is_over = flag(alloc)?;
    let beats = Beats {
        first: crew.inlet(NodeId::new(1))?,
        last: crew.inlet(NodeId::new(3))?,
        is_over: Arc::try_clone(&is_over)?,
        has_passed: hold.has_passed,
    };
    let handle = *rt;
    let thread = thread::spawn(rt, move || beats.run(&handle))?;
    let looked = confirm(rt, alloc, crew);
    is_over.store(true, Ordering::SeqCst);
    thread.join(rt);
    looked
}

/// What a confirmed look at node 3 shows.
fn confirm<M>(rt: &impl Wait, alloc: Global, crew: &Crew<M>) -> Result<Told, Fail>
where
    M: Marking<Target = Name>,
    M::Played: Spelled,
{
    let target = Name::from_bytes(Vec::from_slice(alloc, b"#x")?).ok_or("name")?;
    let looked = crew.node(NodeId::new(3))?.confirmed(rt, target)?;
    let mut lines = Vec::new(alloc);
    for line in &looked.lines {
        lines.extend_from_slice(line.spelling())?;
        lines.push(b'\n')?;
    }
    Ok(Told::Lines(lines))
}

/// What tells node 1 to beat, while the cluster's own thread waits for node 3.
#[derive(Drop)]
struct Beats<M: Hosted> {
    first: Inlet<M>,
    last: Inlet<M>,
    is_over: Flag,
    /// Whether node 3 passed its gate.
    has_passed: Flag,
}

impl<M: Hosted> Beats<M> {
    /// Beats until all is over, for so long at most. Then the worker of node 3 ends, so that nobody
    /// waits for it. It begins once node 3 was let go: a look that waits for nothing is answered
    /// before node 3 knows what is agreed.
    fn run<R: Wait + Clock>(&self, rt: &R) {
        let mut rests = 0u64;
        for _ in 1..MOST_RESTS {
            rest(rt);
            if self.is_over.load(Ordering::SeqCst) {
                return;
            }
            if self.has_passed.load(Ordering::SeqCst) {
                rests = rests.saturating_add(1);
                if rests % RESTS_A_BEAT == 0 && self.first.node().submit(rt, Note::Beat).is_err() {
                    break;
                }
            }
        }
        let _ = self.last.node().submit(rt, Note::End);
    }
}
