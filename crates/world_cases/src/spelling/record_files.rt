//! Records and their files, by example.
use buffer_commands::{Effect, WireLine};
use buffer_lines::Shown;
use irc_line::Name;
use raft_log::{GroupSize, NodeId, Role};
use recorder::NodeFields;
use records::{Merged, Record, Turn, merge, parse_record, write_record};
use std::alloc::{AllocError, Global};
use std::test::Fail;
use wire_bytes::Number;
use world_events::Event;
use world_run::Outcome;

/// A run of three nodes, of which one is recorded, over a setup that is spelled in one byte.
const TEXT: &[u8] =
    b"RBREC02 3\n2a\ntimeout 1\nclaim 1\noutputs\n2 1 refused 5 NoLeader\nnode 1 candidate term 1 vote 1 log 2 last 0 commit 0 applied 0\n";

/// The events of such a run, in a file of before clients had names.
const FIRST_TEXT: &[u8] = b"RBREC01 3\n2a\ntimeout 1\nclaim 1\noutputs\n";

/// What node 1 is when it asked for votes once.
fn candidate() -> NodeFields {
    NodeFields {
        role: Role::Candidate,
        term: Number::new(1),
        vote: Some(NodeId::new(1)),
        log: Number::new(2),
        last: Number::new(0),
        commit: Number::new(0),
        applied: Number::new(0),
    }
}

/// A node's record, of turns that are letters with a ticket each.
fn letters(alloc: Global, node: NodeId, turns: &[(u64, u8)]) -> Result<Record<u8, u8>, AllocError> {
    let mut all = Vec::new(alloc);
    for (ticket, letter) in turns {
        all.push(Turn {
            ticket: *ticket,
            event: *letter,
            outcome: letter.to_ascii_uppercase(),
        })?;
    }
    Ok(Record {
        node,
        turns: all,
        state: candidate(),
    })
}

/// Whether the turns of three records and what they gave come to a word, and three nodes to as many.
fn come_to(alloc: Global, wanted: &[u8]) -> Result<bool, AllocError> {
    let second = letters(alloc, NodeId::new(2), &[(1, b'c'), (4, b'f')])?;
    let first = letters(alloc, NodeId::new(1), &[(1, b'a'), (1, b'b'), (3, b'e')])?;
    let third = letters(alloc, NodeId::new(3), &[(2, b'd')])?;
    let run = merge(alloc, vec![in alloc; second, first, third]?)?;
    let mut word = Vec::new(alloc);
    for turn in &run.turns {
        word.push(turn.event)?;
        word.push(turn.outcome)?;
    }
    Ok(word.as_slice() == wanted && run.nodes.len() == 3)
}

#[test]
fn turns_stand_by_ticket_then_node_then_place(rt: HostRuntime) -> Result<(), Fail> {
    assert!(rt; come_to(rt.alloc(), b"aAbBcCdDeEfF")?);
    Ok(())
}

/// A run of which no turn was recorded, over a setup that is spelled in one byte.
const NO_TURNS: &[u8] =
    b"RBREC02 3\n2a\noutputs\nnode 1 candidate term 1 vote 1 log 2 last 0 commit 0 applied 0\n";

/// Whether a run of which no turn was recorded is written so.
fn is_written(alloc: Global, wanted: &[u8]) -> Result<bool, Fail> {
    let size = GroupSize::new(3).ok_or("no size")?;
    let run: Merged<Event<u8, WireLine, Name>, Outcome<Effect, Shown>> = Merged {
        turns: Vec::new(alloc),
        nodes: vec![in alloc; (NodeId::new(1), candidate())]?,
    };
    let text = write_record(alloc, size, &42u8, &run)?;
    Ok(text.as_slice() == wanted)
}

/// Whether a file is of three nodes over the setup 42, with two events, and its outputs begin so.
fn is_read(alloc: Global, text: &[u8], front: &[u8]) -> Result<bool, Fail> {
    let (recording, outputs) = parse_record::<u8, u8>(alloc, text)?;
    let of_three = recording.setup == 42 && recording.size.value() == 3;
    Ok(of_three && recording.events.len() == 2 && outputs.starts_with(front))
}

#[test]
fn a_run_is_written_as_its_file_which_is_read_up_to_its_outputs(
    rt: HostRuntime,
) -> Result<(), Fail> {
    assert!(rt; is_written(rt.alloc(), NO_TURNS)?);
    assert!(rt; is_read(rt.alloc(), TEXT, b"2 1 refused 5 NoLeader\nnode 1 ")?);
    assert!(rt; is_read(rt.alloc(), FIRST_TEXT, b"")?);
    Ok(())
}
