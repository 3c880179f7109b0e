//! The rule that every step on the table keeps.
ghost use Rattle.ether.specs.Rule.{IsKept, dealer};

use crate::known::Known;
use atomic_table::TableRule;
use machine_laws::Hosted;
use raft_log::GroupSize;
use raft_node::Described;
use std::marker::PhantomData;
use world_views::Envelope;

/// How many nodes there are, and the setup of the machine that each hosts.
#[derive(Drop)]
pub struct Group<S> {
    pub size: GroupSize,
    pub setup: S,
}

/// The rule of an ether's table.
pub struct Mailboxes<M> {
    of: PhantomData<M>,
}

impl<M: Hosted> TableRule<
    Option<Envelope<M::Command>>,
    Known<M::Command, M::Line, M::Target>,
    Group<M::Setup>,
> for Mailboxes<M> {
    ghost holds = { λ group. IsKept (⟦<M as Described>⟧.machine group.setup) group.size };

    ghost first = { λ group. dealer group.size };
}
