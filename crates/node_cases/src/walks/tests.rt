use crate::walks::case::{ADDRESSED, BEFORE, BEHIND, NUMBERED, ROUND};
use crate::walks::cells::walk_cells;
use crate::walks::gate::walk_gate;
use crate::walks::nodes::walk_nodes;
use crate::walks::opening::walk_ether;
use crate::walks::rounds::{Case, walk_rounds};
use bouncer_tower::Tower;
use buffer_commands::Setup;
use raft_log::GroupSize;
use setup_spelling::WireSetup;
use std::alloc::Global;
use std::io::{self, Write};
use std::test::Fail;

/// The record of the case over three cells, where allocations may be refused in what this node does.
fn record(alloc: Global, tried: u8) -> Result<Vec<u8>, Fail> {
    let setup = WireSetup::new(Setup::plain(alloc)?);
    walk_cells::<Tower>(alloc, setup.setup(), &setup, ADDRESSED.as_bytes(), tried)
}

#[test]
fn gate(rt: HostRuntime) -> Result<(), Fail> {
    let text = walk_gate(rt.alloc())?;
    io::writer(&rt).write_all(&text)?;
    Ok(())
}

#[test]
fn ether(rt: HostRuntime) -> Result<(), Fail> {
    let alloc = rt.alloc();
    let size = GroupSize::new(3).ok_or("size")?;
    let text = walk_ether::<Tower>(alloc, size, &Setup::plain(alloc)?)?;
    io::writer(&rt).write_all(&text)?;
    Ok(())
}

#[test]
fn nodes(rt: HostRuntime) -> Result<(), Fail> {
    let alloc = rt.alloc();
    let text = walk_nodes::<Tower>(alloc, &Setup::plain(alloc)?, NUMBERED.as_bytes())?;
    io::writer(&rt).write_all(&text)?;
    Ok(())
}

#[test]
fn cell_of_node_1(rt: HostRuntime) -> Result<(), Fail> {
    let text = record(rt.alloc(), 1)?;
    io::writer(&rt).write_all(&text)?;
    Ok(())
}

#[test]
fn cell_of_node_2(rt: HostRuntime) -> Result<(), Fail> {
    let text = record(rt.alloc(), 2)?;
    io::writer(&rt).write_all(&text)?;
    Ok(())
}

#[test]
fn cell_of_node_3(rt: HostRuntime) -> Result<(), Fail> {
    let text = record(rt.alloc(), 3)?;
    io::writer(&rt).write_all(&text)?;
    Ok(())
}

#[test]
fn rounds(rt: HostRuntime) -> Result<(), Fail> {
    let alloc = rt.alloc();
    let setup = WireSetup::new(Setup::plain(alloc)?);
    let case = Case {
        before: BEFORE.as_bytes(),
        round: ROUND.as_bytes(),
        behind: BEHIND.as_bytes(),
    };
    let text = walk_rounds::<Tower>(alloc, setup.setup(), &setup, &case, 20)?;
    io::writer(&rt).write_all(&text)?;
    Ok(())
}
