//! An ether for three nodes, for tests.
ghost use Rattle.std.specs.Prelude.{◌≡◌, IfOk};
ghost use Rattle.ether.specs.Passes.{AreNew, IsOpenPass, IsPass, IsUnopened, StaysOpen, view_of};

use ether::{Ether, Pass};
use machine_laws::{Hosted, Machine};
use raft_log::GroupSize;
use std::alloc::Global;
use std::test::Fail;

/// An ether for three nodes, and the passes of nodes 1 and 2.
pub fn two_of_three<M: Hosted>(
    alloc: Global,
    setup: &M::Setup,
) -> Result<
    (
        Ether<M>,
        Pass<M::Command, M::Line, M::Target>,
        Pass<M::Command, M::Line, M::Target>,
    ),
    Fail,
>
    ensures { IfOk result (λ r. (IsPass r.0 r.1 × IsUnopened r.1)
        × (IsPass r.0 r.2 × IsUnopened r.2)) }
{
    let Some(size) = GroupSize::new(3) else {
        return Err(Fail::from("no such size"));
    };
    let (ether, passes) = Ether::<M>::new(alloc, size, setup)?;
    let mut passes = passes;
    let _three = last_pass(&ether, &mut passes)?;
    let two = last_pass(&ether, &mut passes)?;
    let one = last_pass(&ether, &mut passes)?;
    Ok((ether, one, two))
}

/// The last of some new passes.
fn last_pass<M: Hosted>(
    ether: &Ether<M>,
    passes: &mut Vec<Pass<M::Command, M::Line, M::Target>>,
) -> Result<Pass<M::Command, M::Line, M::Target>, Fail>
    requires { AreNew ether.now passes.old.items }
    ensures { IfOk result (λ p. AreNew ether.now passes.new.items × IsPass ether.now p
        × IsUnopened p) }
{
    let _ = ether;
    match passes.pop() {
        Some(pass) => Ok(pass),
        None => Err(Fail::from("no pass is left")),
    }
}

/// Whether what the pass's node posted last to the node at this place was taken.
pub fn is_taken<M: Hosted>(
    ether: &Ether<M>,
    pass: &mut Pass<M::Command, M::Line, M::Target>,
    to: u64,
) -> bool
    requires { IsOpenPass ether.now pass.old }
    ensures { StaysOpen ether.now pass.old pass.new × (view_of pass.new ≡ view_of pass.old) }
{
    to < ether.size().value() as u64 && ether.is_taken(pass, to)
}

/// Takes what lies in the mailbox from the node at this place. Gives its number.
pub fn taken<M: Hosted>(
    ether: &Ether<M>,
    pass: &mut Pass<M::Command, M::Line, M::Target>,
    from: u64,
) -> Option<u64>
    requires { IsPass ether.now pass.old }
    ensures { IsPass ether.now pass.new }
{
    if from >= ether.size().value() as u64 {
        return None;
    }
    match ether.take(pass, from) {
        Some(envelope) => Some(envelope.number),
        None => None,
    }
}
