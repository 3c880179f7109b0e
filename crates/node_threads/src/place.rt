//! A node of a worker.

use crate::opener::Opener;
use machine_laws::{Hosted, Machine, Marking};
use node_cells::{NodeCell, UnopenedCell, Upstream};
use stable_store::Stable;

/// A node of a worker, both as the worker begins with it and as it leaves it.
#[derive(Drop)]
pub enum Place<M: Marking, S: Stable<M::Command>, U: Upstream, L: Opener<S>> {
    /// It was opened.
    Open(NodeCell<M, S, U>),
    /// Its store is not there yet, and this opens it.
    Late(UnopenedCell<M, U>, L),
}
