//! Want of memory where an ether is made.
use ether::{Ether, EtherFault};
use raft_log::GroupSize;
use std::alloc::Global;
use std::process::Abort;
use std::test::Fail;
use toy_machine::Toy;

/// Whether there is memory for an ether for three nodes, which has a pass for each.
fn is_made(rt: &impl Abort, alloc: Global) -> Result<bool, Fail> {
    let Some(size) = GroupSize::new(3) else {
        return Err(Fail::from("no such size"));
    };
    match Ether::<Toy>::new(alloc, size, &0) {
        Ok((ether, passes)) => {
            assert!(rt; ether.size().value() == 3 && passes.len() == 3);
            Ok(true)
        }
        Err(EtherFault::Memory) => Ok(false),
        Err(EtherFault::Spent) => Err(Fail::from("not for want of memory")),
    }
}

/// With an allocation refused, as `--fail-alloc` does, the first ether is not made, and the second is.
#[test]
fn an_ether_is_made_or_memory_is_wanting(rt: HostRuntime) -> Result<(), Fail> {
    let first = is_made(&rt, rt.alloc())?;
    let second = is_made(&rt, rt.alloc())?;
    assert!(rt; first || second);
    Ok(())
}
