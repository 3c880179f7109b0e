//! Of what any two nodes commit after any two beginnings of a list of events, one list begins the other.
use crate::world::listed_cases::CASES;
use crate::world::listed_rows::WORKED;
use bouncer_tower::Tower;
use buffer_commands::{Setup, WireLine};
use irc_line::Name;
use machine_laws::Hosted;
use raft_log::Entry;
use recorder::parse_events;
use std::alloc::{AllocError, Global};
use std::test::Fail;
use wire_bytes::Wire;
use world_events::Event;
use world_run::World;

/// The spelling of entries. That of no entry begins that of another, so a list of entries begins another
/// exactly where its spelling does.
fn spelled<B: Wire>(alloc: Global, entries: &[Entry<B>]) -> Result<Vec<u8>, AllocError> {
    let mut out = Vec::new(alloc);
    for entry in entries {
        entry.fits();
        entry.put(&mut out)?;
    }
    Ok(out)
}

/// Whether of a list and what each node commits one begins the other. The list is the longest of them then.
fn goes_on<M: Hosted>(
    alloc: Global,
    world: &World<M>,
    longest: &mut Vec<u8>,
) -> Result<bool, AllocError> {
    for node in 1..world.size() as u8 + 1 {
        let Some(entries) = world.committed(node)? else {
            return Ok(false);
        };
        let list = spelled(alloc, &entries)?;
        if list.starts_with(longest) {
            *longest = list;
        } else if !longest.starts_with(&list) {
            return Ok(false);
        }
    }
    Ok(true)
}

/// The same of what each node of so many commits after these events.
fn goes_on_after<M: Hosted>(
    alloc: Global,
    size: u8,
    setup: &M::Setup,
    events: &[Event<M::Command, M::Line, M::Target>],
    longest: &mut Vec<u8>,
) -> Result<bool, Fail> {
    let world = World::<M>::run(alloc, size, setup, events)?;
    Ok(goes_on(alloc, &world, longest)?)
}

/// Whether what nodes commit after all beginnings of a list of events goes on from the longest of it. Of two
/// lists that both begin it one begins the other.
fn agree<M>(alloc: Global, size: u8, setup: &M::Setup, events: &str) -> Result<bool, Fail>
where
    M: Hosted<Line = WireLine, Target = Name>,
{
    let events = parse_events::<M::Command>(alloc, events.as_bytes())?;
    let mut longest = Vec::new(alloc);
    for count in 0..events.len() + 1 {
        if !goes_on_after::<M>(alloc, size, setup, &events[..count], &mut longest)? {
            return Ok(false);
        }
    }
    Ok(true)
}

/// Whether that is so of each list.
fn all_agree<M>(alloc: Global, setup: &M::Setup, all: &[(u8, &str)]) -> Result<bool, Fail>
where
    M: Hosted<Line = WireLine, Target = Name>,
{
    for (size, events) in all {
        if !agree::<M>(alloc, *size, setup, events)? {
            return Ok(false);
        }
    }
    Ok(true)
}

#[test]
fn what_nodes_commit_begins_one_list(rt: HostRuntime) -> Result<(), Fail> {
    let setup = Setup::plain(rt.alloc())?;
    assert!(rt; all_agree::<Tower>(rt.alloc(), &setup, WORKED)?);
    assert!(rt; all_agree::<Tower>(rt.alloc(), &setup, CASES)?);
    Ok(())
}
