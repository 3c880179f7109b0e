//! What a store records about itself.
ghost use Rattle.std.specs.Prelude.{◌≡◌, IfOk};

use buffer_commands::Setup;
use raft_log::GroupSize;
use std::alloc::{AllocError, Global};
use wire_bytes::{Copied, Number};

/// The setup of the log of a store.
#[derive(Drop)]
pub struct StoreSetup {
    /// How many nodes the group has.
    pub nodes: GroupSize,
    /// How often the log was renewed.
    pub renewals: Number,
    /// What distinguishes it from every other store: when it was made, in microseconds since 1970. None if it was made
    /// by a program that gave stores no names, until its log is renewed.
    pub name: Option<Number>,
    pub setup: Setup,
}

impl StoreSetup {
    /// The setup of a store of this many nodes, whose log was renewed this often, with this name and a copy of this
    /// setup.
    pub fn of(
        alloc: Global,
        nodes: GroupSize,
        renewals: Number,
        name: Option<Number>,
        setup: &Setup,
    ) -> Result<StoreSetup, AllocError>
        ensures { IfOk result (λ s. s ≡ record {
          nodes = nodes;
          renewals = renewals;
          name = name;
          setup = setup.now;
        }) }
    {
        Ok(StoreSetup {
            nodes,
            renewals,
            name,
            setup: setup.copy(alloc)?,
        })
    }
}
