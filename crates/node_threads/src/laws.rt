//! Laws of a worker over any number of rounds, as contracts of functions that do nothing.
ghost use Rattle.node_threads.specs.Served.{RequestsAreCounted, WhatComesIsServed, WhatStandsIsServed};

use crate::inflow::Inflow;
use crate::job::Job;
use machine_laws::{Hosted, Machine, Marking};
use node_cells::Upstream;
use raft_node::Described;
use stable_store::Stable;

/// Over any number of rounds, whatever comes in its inbox, a worker does each job that is for its node once and in
/// order. Each request that it gets is asked, or ended by a restart, or dropped because memory ran out, or still waits:
/// exactly one of these, and once more each time it comes back. The worker's loop does such rounds.
pub fn what_comes_is_served<M: Marking, S: Stable<M::Command>, U: Upstream, I: Inflow<Job<M>>>()
    ensures { (s : M.Setup) → WhatComesIsServed (⟦<M as Described>⟧.machine s) M.Setup M S U.tally
        M.marked M.mark I.gives }
{}

/// After at least as many rounds as there are jobs in the inbox, all of those have come: each that is for the node is
/// done, and each request among them was asked, ended, dropped because memory ran out, or still waits.
pub fn what_stands_is_served<M: Marking, S: Stable<M::Command>, U: Upstream, I: Inflow<Job<M>>>()
    ensures { (s : M.Setup) → WhatStandsIsServed (⟦<M as Described>⟧.machine s) M.Setup M S U.tally
        M.marked M.mark I.gives }
{}

/// The number of times that a request was asked, ended by a restart, dropped because memory ran out or still waits is
/// the number of times that it had waited, was sent or came back. So none is forgotten, and none is asked more often
/// than it was sent and came back. None came back more often than it was asked, and once more if it was the last that
/// was asked before.
pub fn requests_are_counted<M: Marking, S: Stable<M::Command>, U: Upstream, I: Inflow<Job<M>>>()
    ensures { (s : M.Setup) → RequestsAreCounted (⟦<M as Described>⟧.machine s) M.Setup M S U.tally
        M.marked M.mark I.gives }
{}
