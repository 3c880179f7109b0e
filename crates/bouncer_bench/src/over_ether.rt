//! Two threads that trade messages over an ether.
ghost use Rattle.std.specs.Prelude.{◌≡◌, ◌≤◌, IfOk};
ghost use Rattle.ether.specs.Passes.{AreNew, IsPass, IsUnopened};
ghost use Rattle.bouncer_bench.specs.Ready.{IsReady};

use crate::fault::TradeFault;
use crate::no_device::NoDevice;
use crate::tasks::{Task, both};
use ether::{Ether, Pass};
use machine_laws::Hosted;
use raft_log::{GroupSize, Kind, Message, NodeId};
use raft_node::Node;
use std::alloc::{AllocError, Global};
use std::thread::Threads;
use toy_machine::Toy;
use wire_bytes::{Number, Wire};
use world_views::Envelope;

type ToyEther = Ether<Toy>;

type ToyPass = Pass<u8, u8, u8>;

/// A message with nothing on the heap.
pub fn vote<B: Wire>(from: u8, to: u8) -> Envelope<B>
    ensures { (result.message.from ≡ from) × (result.message.to ≡ to) }
{
    Envelope {
        number: 1,
        message: Message {
            term: Number::new(1),
            from,
            to,
            kind: Kind::Vote { granted: true },
        },
    }
}

/// Posts a message and takes one in turn, this many times. Returns how many came.
fn trade<M: Hosted>(
    ether: &Ether<M>,
    pass: &mut Pass<M::Command, M::Line, M::Target>,
    from: u8,
    to: u8,
    rounds: u64,
) -> u64
    requires { IsReady ether.now pass.old from to }
{
    let mut came = 0u64;
    let sender = to as u64 - 1;
    for round in 0..rounds {
        let _ = round;
        let _older = ether.post(pass, vote(from, to));
        if ether.take(pass, sender).is_some() {
            came = came.wrapping_add(1);
        }
    }
    came
}

/// One thread's part.
#[derive(Drop)]
struct Side<'a> {
    ether: &'a ToyEther,
    pass: ToyPass,
    from: u8,
    to: u8,
    rounds: u64,
}

impl<'a> Task for Side<'a> {
    ghost can_run = { λ s. IsReady s.ether.now s.pass s.from s.to };

    fn run(self) -> Result<u64, AllocError> {
        let Side {
            ether,
            pass,
            from,
            to,
            rounds,
        } = self;
        let mut pass = pass;
        Ok(trade(ether, &mut pass, from, to, rounds))
    }
}

/// The part of the node of this pass, which starts over no device.
fn seated<'a>(
    alloc: Global,
    ether: &'a ToyEther,
    pass: ToyPass,
    to: u8,
    rounds: u64,
) -> Result<Side<'a>, TradeFault>
    requires { IsPass ether.now pass × IsUnopened pass × (1 ≤ to) × (to ≤ ether.now.size) }
    ensures { IfOk result (λ s. IsReady s.ether.now s.pass s.from s.to) }
{
    let mut pass = pass;
    let place = pass.node();
    if place >= 7 {
        return Err(TradeFault::Node);
    }
    let from = place as u8 + 1;
    let node = Node::start(
        alloc,
        NodeId::new(from),
        ether.size(),
        ether.setup(),
        NoDevice::new(alloc),
    )?;
    ether.opening(&mut pass, &node);
    Ok(Side {
        ether,
        pass,
        from,
        to,
        rounds,
    })
}

/// An ether for three nodes, and the passes of nodes 1 and 2.
fn two_of_three(alloc: Global) -> Result<(ToyEther, ToyPass, ToyPass), TradeFault>
    ensures { IfOk result (λ r. (IsPass r.0 r.1 × IsUnopened r.1)
        × (IsPass r.0 r.2 × IsUnopened r.2) × (r.0.size ≡ 3)) }
{
    let Some(size) = GroupSize::new(3) else {
        return Err(TradeFault::Node);
    };
    let (ether, passes) = Ether::<Toy>::new(alloc, size, &0)?;
    let mut passes = passes;
    let _three = last_pass(&ether, &mut passes)?;
    let two = last_pass(&ether, &mut passes)?;
    let one = last_pass(&ether, &mut passes)?;
    Ok((ether, one, two))
}

/// The last of some new passes.
fn last_pass(ether: &ToyEther, passes: &mut Vec<ToyPass>) -> Result<ToyPass, TradeFault>
    requires { AreNew ether.now passes.old.items }
    ensures { IfOk result (λ p. AreNew ether.now passes.new.items × IsPass ether.now p
        × IsUnopened p) }
{
    let _ = ether;
    match passes.pop() {
        Some(pass) => Ok(pass),
        None => Err(TradeFault::Node),
    }
}

/// This many posts and takes of each of two threads. Returns how many messages came.
pub fn trade_over_ether<R: Threads>(rt: &R, alloc: Global, rounds: u64) -> Result<u64, TradeFault> {
    let (ether, one, two) = two_of_three(alloc)?;
    let one = seated(alloc, &ether, one, 2, rounds)?;
    let two = seated(alloc, &ether, two, 1, rounds)?;
    let (came, others) = both(rt, one, two);
    Ok(came?.wrapping_add(others?))
}
