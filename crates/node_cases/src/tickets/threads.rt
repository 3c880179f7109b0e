//! Two threads over one ether.
ghost use Rattle.std.specs.Prelude.{IfOk};
ghost use Rattle.ether.specs.Passes.{IsOpenPass, IsPass, IsSent, IsUnopened, view_of};

use crate::tickets::passes::two_of_three;
use crate::tickets::seated::Seated;
use ether::{Ether, Pass};
use machine_laws::{Hosted, Machine};
use stable_store::{MemoryStore, Stable};
use std::alloc::Global;
use std::test::Fail;
use std::thread;
use std::thread::{Threads, join};
use toy_machine::Toy;
use world_views::{Envelope, NodeEvent, NodeInput};

/// Posts a message, and then looks for one from the node at this place, at most 1,000,000 times. Gives
/// whether one came.
fn post_and_look<M: Hosted>(
    ether: &Ether<M>,
    pass: Pass<M::Command, M::Line, M::Target>,
    message: Envelope<M::Command>,
    from: u64,
) -> bool
    requires opened { IsOpenPass ether.now pass }
    requires message { IsSent (view_of pass) message }
{
    let size = ether.size().value();
    if from >= size as u64 || message.message.to < 1 || message.message.to > size {
        return false;
    }
    let mut pass = pass;
    let _older = ether.post(&mut pass, message);
    for look in 0..1_000_000 {
        let _ = look;
        if ether.take(&mut pass, from).is_some() {
            return true;
        }
        thread::yield_now();
    }
    false
}

/// A node that waited too long for a leader, with the first message by which it asks for votes.
fn asking<M: Hosted, S: Stable<M::Command>>(
    alloc: Global,
    ether: &Ether<M>,
    pass: Pass<M::Command, M::Line, M::Target>,
    store: S,
) -> Result<(Pass<M::Command, M::Line, M::Target>, Envelope<M::Command>), Fail>
    requires { IsPass ether.now pass × IsUnopened pass }
    ensures { IfOk result (λ r. IsOpenPass ether.now r.0 × IsSent (view_of r.0) r.1) }
{
    let (_ticket, mut seat) = Seated::open(alloc, ether, pass, store)?;
    let (_ticket, message) = seat.act(ether, NodeEvent::Does(NodeInput::Timeout))?;
    match message {
        Some(message) => Ok((seat.pass, message)),
        None => Err(Fail::from("no message")),
    }
}

/// Two threads trade over this ether.
fn cross<R: Threads>(
    rt: &R,
    ether: &Ether<Toy>,
    one: (Pass<u8, u8, u8>, Envelope<u8>),
    other: (Pass<u8, u8, u8>, Envelope<u8>),
) -> (bool, bool)
    requires one { IsOpenPass ether.now one.0 × IsSent (view_of one.0) one.1 }
    requires other { IsOpenPass ether.now other.0 × IsSent (view_of other.0) other.1 }
{
    join(
        rt,
        move || -> bool
            requires { IsOpenPass ether.now one.0 × IsSent (view_of one.0) one.1 }
        { post_and_look(ether, one.0, one.1, 1) },
        move || -> bool
            requires { IsOpenPass ether.now other.0 × IsSent (view_of other.0) other.1 }
        { post_and_look(ether, other.0, other.1, 0) },
    )
}

#[test]
fn two_threads_have_each_others_message(rt: HostRuntime) -> Result<(), Fail> {
    let alloc = rt.alloc();
    let (ether, one, two) = two_of_three::<Toy>(alloc, &0)?;
    let one = asking(alloc, &ether, one, MemoryStore::new(alloc))?;
    let two = asking(alloc, &ether, two, MemoryStore::new(alloc))?;
    assert!(rt; cross(&rt, &ether, one, two) == (true, true));
    Ok(())
}
