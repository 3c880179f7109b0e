//! Laws of the turns of every cell.
ghost use Rattle.node_cells.specs.Together.{OneIsATurn};

use crate::upstream::Upstream;
use machine_laws::{Hosted, Machine};
use raft_node::Described;
use stable_store::Stable;

/// Several inputs together, if there is only one, are a turn of it: the same event, with its answer.
pub fn one_input_alone_is_a_turn<M: Hosted, S: Stable<M::Command>, U: Upstream>()
    ensures { (s : M.Setup) → OneIsATurn (⟦<M as Described>⟧.machine s) M.Setup M S U.tally }
{}
