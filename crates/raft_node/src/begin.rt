//! How a node begins a run over what its store holds.
ghost use Rattle.std.specs.Prelude.{◌≡◌, ◌<◌};
ghost use Rattle.raft_node.specs.Parts.{keeper, size_of};
ghost use Rattle.raft_node.specs.Starting.{BeganWith, IsBegun};
ghost use Rattle.wire_bytes.specs.Limits.{number_limit};

use crate::keep::save;
use crate::node_fault::{Cause, NodeFault};
use node_steps::Refusal;
use raft_log::{GroupSize, NodeState, Peers, Position, Standing};
use stable_store::{Saved, Stable};
use std::alloc::Global;
use wire_bytes::{LAST_NUMBER, Number, Wire};

/// Begins a run over what the store holds; the store then holds the new run's number. `TermsSpent`
/// if no number follows that of the last run.
pub fn begin<B: Wire, S: Stable<B>>(
    alloc: Global,
    store: &mut S,
    size: GroupSize,
) -> Result<NodeState<B>, NodeFault>
    ensures { IsBegun (keeper S.saved S.may_stand S.condition) size store.old result store.new }
{
    let saved = match store.read() {
        Ok(saved) => saved,
        Err(fault) => return Err(NodeFault::Down(Cause::of(fault))),
    };
    if saved.boot.value() >= LAST_NUMBER {
        return Err(NodeFault::Refused(Refusal::TermsSpent));
    }
    let state = next_run(saved, size);
    let keep = state.log.len();
    match save(store, &state.standing, keep, Vec::new(alloc)) {
        Ok(_) => Ok(state),
        Err(cause) => Err(NodeFault::Down(cause)),
    }
}

/// Begins a run once the store serves again, over what its device holds.
pub fn begin_again<B: Wire, S: Stable<B>>(
    alloc: Global,
    store: &mut S,
    size: GroupSize,
) -> Result<NodeState<B>, NodeFault>
    ensures { IsBegun (keeper S.saved S.may_stand S.condition) size store.old result store.new }
{
    match store.again() {
        Ok(()) => begin(alloc, store, size),
        Err(fault) => Err(NodeFault::Down(Cause::of(fault))),
    }
}

/// The state of the run after the one that saved this.
fn next_run<B: Wire>(saved: Saved<B>, size: GroupSize) -> NodeState<B>
    requires { saved.boot < number_limit }
    ensures begins { BeganWith size saved result }
    ensures size { size_of result ≡ size }
{
    let Saved {
        boot,
        term,
        vote,
        log,
    } = saved;
    let standing = Standing {
        boot: Number::new(boot.value() + 1),
        term,
        vote,
        position: Position::Follower(None),
        commit: Number::new(0),
        applied: Number::new(0),
        peers: Peers::new(size),
        attempts: Number::new(0),
    };
    NodeState { standing, log }
}
