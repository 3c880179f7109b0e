use crate::running::client::Client;
use crate::running::clusters::{Counter, counter, counters, flag, watches};
use crate::running::gates::{Hold, Holding, Meeting, Slow};
use crate::running::story::{Story, play};
use bouncer_tower::Tower;
use buffer_commands::Setup;
use node_threads::{Gate, OpenGate};
use raft_log::{GroupSize, NodeId};
use records::Verdict;
use setup_spelling::WireSetup;
use std::alloc::Global;
use std::rt::Clock;
use std::sync::Wait;
use std::sync::atomic::Ordering;
use std::test::Fail;
use std::thread::Threads;
use world_app::replay;

/// The line that node 1's client said, as it is played.
const LINE: &[u8] = b":me!bouncer@local PRIVMSG #x :[22:13:20] hi";

/// What comes of a story of as many bouncers as there are counters.
fn told<R, G>(
    rt: &R,
    alloc: Global,
    size: GroupSize,
    counters: &[Counter],
    gate: G,
    story: Story,
) -> Result<Vec<u8>, Fail>
where
    R: Threads + Wait + Clock + Sync + Send + Copy + 'static,
    G: Gate + Drop + Send + Sync + 'static,
{
    let setup = WireSetup::new(Setup::plain(alloc)?);
    let is_burst = matches!(&story, Story::Burst(_, _));
    let refused = counter(alloc)?;
    let outlets = watches(alloc, counters, &refused)?;
    let told = play::<Tower, _, _, _>(rt, alloc, size, &setup, outlets, gate, story)?;
    if is_burst && refused.load(Ordering::SeqCst) > 0 {
        return Err(Fail::from("a repeat or a gap"));
    }
    Ok(told)
}

/// What a replay of the record of a run of so many nodes comes to.
fn replayed<R>(rt: &R, alloc: Global, size: u8) -> Result<Verdict, Fail>
where
    R: Threads + Wait + Clock + Sync + Send + Copy + 'static,
{
    let size = GroupSize::new(size).ok_or("size")?;
    let counters = counters(alloc, size)?;
    let [first, second, ..] = counters.as_slice() else {
        return Err(Fail::from("no such nodes"));
    };
    let story = Story::Record([
        Client::new(NodeId::new(1), first)?,
        Client::new(NodeId::new(2), second)?,
    ]);
    let text = told(rt, alloc, size, counters.as_slice(), OpenGate, story)?;
    Ok(replay(alloc, text.as_slice())?)
}

#[test]
fn what_three_threads_record_replays_as_the_same(rt: HostRuntime) -> Result<(), Fail> {
    assert!(rt; replayed(&rt, rt.alloc(), 3)? == Verdict::Same);
    Ok(())
}

#[test]
fn what_seven_threads_record_replays_as_the_same(rt: HostRuntime) -> Result<(), Fail> {
    assert!(rt; replayed(&rt, rt.alloc(), 7)? == Verdict::Same);
    Ok(())
}

#[test]
fn gate_holds_node_1(rt: HostRuntime) -> Result<(), Fail> {
    let alloc = rt.alloc();
    let size = GroupSize::new(3).ok_or("size")?;
    let counters = counters(alloc, size)?;
    let has_failed = flag(alloc)?;
    let gate = Meeting::new(rt, &has_failed)?;
    told(&rt, alloc, size, counters.as_slice(), gate, Story::Meet)?;
    assert!(rt; !has_failed.load(Ordering::SeqCst));
    Ok(())
}

#[test]
fn confirmed_waits(rt: HostRuntime) -> Result<(), Fail> {
    let alloc = rt.alloc();
    let size = GroupSize::new(3).ok_or("size")?;
    let counters = counters(alloc, size)?;
    let client = Client::new(NodeId::new(1), counters.first().ok_or("node")?)?;
    let hold = Hold::new(alloc)?;
    let gate = Holding::new(rt, &hold)?;
    let story = Story::Confirm(client, hold);
    let lines = told(&rt, alloc, size, counters.as_slice(), gate, story)?;
    let mut lines = lines.as_slice().split(|byte| *byte == b'\n');
    lines.next();
    assert!(rt; lines.next() == Some(LINE));
    lines.next();
    assert!(rt; lines.next() == Some(b"".as_slice()));
    assert!(rt; lines.next() == None);
    Ok(())
}

#[test]
fn a_burst_at_a_follower_is_one_entry_a_request(rt: HostRuntime) -> Result<(), Fail> {
    let alloc = rt.alloc();
    let size = GroupSize::new(3).ok_or("size")?;
    let counters = counters(alloc, size)?;
    let client = Client::new(NodeId::new(2), counters.get(1).ok_or("node")?)?;
    told(
        &rt,
        alloc,
        size,
        counters.as_slice(),
        OpenGate,
        Story::Burst(client, 90),
    )?;
    Ok(())
}

#[test]
fn requests_at_a_follower_go_through_while_the_leader_sends_without_end(
    rt: HostRuntime,
) -> Result<(), Fail> {
    let alloc = rt.alloc();
    let size = GroupSize::new(3).ok_or("size")?;
    let counters = counters(alloc, size)?;
    let client = Client::new(NodeId::new(2), counters.get(1).ok_or("node")?)?;
    let turns = counter(alloc)?;
    let gate = Slow::new(rt, &turns)?;
    let story = Story::Busy(client, turns);
    told(&rt, alloc, size, counters.as_slice(), gate, story)?;
    Ok(())
}

#[test]
fn who_has_heard_of_a_leader_since_asks_for_no_votes(rt: HostRuntime) -> Result<(), Fail> {
    let alloc = rt.alloc();
    let size = GroupSize::new(3).ok_or("size")?;
    let counters = counters(alloc, size)?;
    told(&rt, alloc, size, counters.as_slice(), OpenGate, Story::Wait)?;
    Ok(())
}
