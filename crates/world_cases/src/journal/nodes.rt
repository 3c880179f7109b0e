//! Nodes over journals, by examples.
ghost use Rattle.std.specs.Prelude.{◌≡◌, ◌≤◌, IfOk};

use crate::journal::lent_disk::LentDisk;
use fault_disks::{Fails, FaultDisk, Unsynced};
use journal_store::{JournalStore, MemoryDisk};
use raft_log::{Batch, Entry, GroupSize, Kind, LoggedBody, Message, NodeId};
use raft_node::{Cause, Input, Node, NodeFault};
use stable_store::{Saved, Stable};
use std::alloc::{AllocError, Global};
use std::process::Abort;
use std::test::Fail;
use toy_machine::Toy;
use wire_bytes::Number;

/// A journal in which nothing is saved.
const EMPTY: [u8; 9] = *b"RBSTOR02\0";

const IMAGES: [Unsynced; 4] = [
    Unsynced::Kept,
    Unsynced::Overwritten(0),
    Unsynced::Overwritten(1),
    Unsynced::Overwritten(255),
];

/// What is saved at first, and after each of the steps of `steps_done`.
const SAVED: [&str; 5] = [
    "boot 0 term 0 vote 0 log 0 last 0",
    "boot 1 term 0 vote 0 log 0 last 0",
    "boot 1 term 1 vote 1 log 0 last 0",
    "boot 1 term 1 vote 1 log 2 last 1",
    "boot 2 term 1 vote 1 log 2 last 1",
];

/// What node 1 says to node 2 in term 1.
fn from_first(kind: Kind<u8>) -> Input<Message<u8>, u8, u8> {
    Input::Deliver(Message {
        term: Number::new(1),
        from: 1,
        to: 2,
        kind,
    })
}

/// It asks for a vote, with an empty log.
fn request() -> Input<Message<u8>, u8, u8> {
    from_first(Kind::RequestVote {
        last_index: Number::new(0),
        last_term: Number::new(0),
    })
}

fn entry(alloc: Global, body: u8) -> Result<Entry<u8>, AllocError> {
    Ok(Entry {
        term: Number::new(1),
        body: LoggedBody::new(alloc, body)?,
    })
}

/// Its blank entry, and one of the body 7.
fn entries(alloc: Global) -> Result<Input<Message<u8>, u8, u8>, AllocError> {
    let mut entries = Vec::with_capacity(alloc, 2)?;
    entries.push(entry(alloc, 0)?)?;
    entries.push(entry(alloc, 7)?)?;
    let (prev, none) = (Number::new(0), Number::new(0));
    Ok(from_first(Kind::Append(Batch::new(prev, none, entries, none))))
}

type JournalNode<'a> = Node<Toy, JournalStore<u8, LentDisk<'a>>>;

/// Node 2 of three in its first run, over an empty journal on a disk. Three calls of the disk adopt, and
/// four save.
fn started<'a>(alloc: Global, disk: &'a mut FaultDisk) -> Result<JournalNode<'a>, NodeFault> {
    let Some(size) = GroupSize::new(3) else {
        return Err(NodeFault::Down(Cause::Memory));
    };
    let Ok(store) = JournalStore::adopt(alloc, LentDisk { disk }) else {
        return Err(NodeFault::Down(Cause::Store));
    };
    JournalNode::start(alloc, NodeId::new(2), size, &0, store)
}

/// How many steps node 2 does over an empty journal on a disk: it begins its first run, gives node 1 its
/// vote, takes its entries, and begins its second run. Four calls of the disk save, and three more begin
/// the second run.
fn steps_done(alloc: Global, disk: &mut FaultDisk) -> Result<usize, Fail>
    ensures { IfOk result (λ n. n ≤ 4) }
{
    match started(alloc, disk) {
        Ok(mut node) => steps_of(alloc, &mut node),
        Err(_) => Ok(0),
    }
}

/// How many steps a node in its first run has done then.
fn steps_of(alloc: Global, node: &mut JournalNode<'_>) -> Result<usize, Fail>
    ensures { IfOk result (λ n. n ≤ 4) }
{
    if node.step(request()).is_err() {
        return Ok(1);
    }
    if node.step(entries(alloc)?).is_err() {
        return Ok(2);
    }
    if node.restart().is_err() {
        return Ok(3);
    }
    Ok(4)
}

/// What a file stands for.
fn found(alloc: Global, file: Vec<u8>) -> Result<String, Fail> {
    let disk = MemoryDisk::new(alloc, file);
    let store: JournalStore<u8, MemoryDisk> = JournalStore::adopt(alloc, disk)?;
    let saved = store.read()?;
    told(alloc, &saved)
}

fn told(alloc: Global, saved: &Saved<u8>) -> Result<String, Fail> {
    let (boot, term) = (saved.boot.value(), saved.term.value());
    let vote = match saved.vote {
        None => 0,
        Some(node) => node.value(),
    };
    let (log, last) = saved.log.last();
    let (log, last) = (log.value(), last.value());
    Ok(format!(in alloc; "boot {boot} term {term} vote {vote} log {log} last {last}")?)
}

/// Whether a crash leaves a disk with what stands for this.
fn leaves(alloc: Global, disk: &FaultDisk, unsynced: Unsynced, wanted: &str) -> Result<bool, Fail> {
    let left = found(alloc, disk.crashed(unsynced)?)?;
    Ok(left.as_str() == wanted)
}

/// A disk with an empty journal, of which these calls fail.
fn empty(alloc: Global, fails: Fails) -> Result<FaultDisk, AllocError> {
    Ok(FaultDisk::new(alloc, EMPTY.to_vec(alloc)?, fails))
}

/// A crash leaves what stands after so many steps, or after the next one.
fn check_done(rt: &impl Abort, alloc: Global, disk: &FaultDisk, done: usize) -> Result<(), Fail>
    requires { done ≤ 4 }
{
    for unsynced in IMAGES {
        let before = leaves(alloc, disk, unsynced, SAVED[done])?;
        assert!(rt; before || (done < 4 && leaves(alloc, disk, unsynced, SAVED[done + 1])?));
    }
    Ok(())
}

#[test]
fn whatever_call_fails_each_step_stands_or_does_not(rt: HostRuntime) -> Result<(), Fail> {
    let alloc = rt.alloc();
    for call in 0..23 {
        for fails in [Fails::From(call), Fails::Once(call)] {
            let mut disk = empty(alloc, fails)?;
            let done = steps_done(alloc, &mut disk)?;
            check_done(&rt, alloc, &disk, done)?;
        }
    }
    Ok(())
}

/// Whether node 2, once it gave its vote, tells node 1 that it took its entries, and does no more.
fn answered(alloc: Global, disk: &mut FaultDisk) -> Result<bool, NodeFault> {
    let mut node = started(alloc, disk)?;
    answers(alloc, &mut node)
}

fn answers(alloc: Global, node: &mut JournalNode<'_>) -> Result<bool, NodeFault> {
    node.step(request())?;
    let output = node.step(entries(alloc)?)?;
    Ok(is_answer(&output.messages))
}

/// Whether all that is sent is that entries were taken up to place 2.
fn is_answer(messages: &[Message<u8>]) -> bool {
    match messages {
        [message] => match &message.kind {
            Kind::AppendReply { ok, place } => message.to == 1 && *ok && place.value() == 2,
            _ => false,
        },
        _ => false,
    }
}

/// A follower that stops once so many calls of the disk passed as it saved its entries does not answer,
/// and each kind of image has the entries or has them not.
fn check_stopped(
    rt: &impl Abort,
    alloc: Global,
    passed: usize,
    taken: &[bool; 4],
) -> Result<(), Fail>
    requires { passed ≤ 4 }
{
    let mut disk = empty(alloc, Fails::From(11 + passed))?;
    assert!(rt; answered(alloc, &mut disk) == Err(NodeFault::Down(Cause::Store)));
    for image in 0..4 {
        let saved = if taken[image] { SAVED[3] } else { SAVED[2] };
        assert!(rt; leaves(alloc, &disk, IMAGES[image], saved)?);
    }
    Ok(())
}

#[test]
fn a_follower_has_all_entries_or_none_and_answers_once_they_are_saved(
    rt: HostRuntime,
) -> Result<(), Fail> {
    // whether each kind of image has the entries, by how many of the four calls passed
    let taken = [
        [false, false, false, false],
        [false, false, false, false],
        [false, false, true, true],
        [true, false, true, true],
    ];
    for passed in 0..4 {
        check_stopped(&rt, rt.alloc(), passed, &taken[passed])?;
    }
    // all four passed
    let mut disk = empty(rt.alloc(), Fails::From(15))?;
    assert!(rt; answered(rt.alloc(), &mut disk) == Ok(true));
    assert!(rt; leaves(rt.alloc(), &disk, Unsynced::Overwritten(255), SAVED[3])?);
    Ok(())
}
