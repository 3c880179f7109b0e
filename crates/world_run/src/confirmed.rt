//! What a body that is asked for now says about what was committed before.
ghost use Rattle.world_run.specs.Laws.{AppliedHas, ConfirmedHas, LaterIsAbove, LookHas, OverAll};

use machine_laws::Hosted;
use raft_node::Described;

/// A body, not blank, that no event has brought so far: each of its places in the agreed list is above all that any
/// node has committed by now. So a node that has committed it, has applied it, or answers a look at its place or after
/// it, has all of that.
pub fn what_is_asked_later_stands_above<M: Hosted>()
    ensures above { (s : M.Setup) → OverAll (⟦<M as Described>⟧.machine s) LaterIsAbove }
    ensures confirmed { (s : M.Setup) → OverAll (⟦<M as Described>⟧.machine s) ConfirmedHas }
    ensures applied { (s : M.Setup) → OverAll (⟦<M as Described>⟧.machine s) AppliedHas }
    ensures look { (s : M.Setup) → OverAll (⟦<M as Described>⟧.machine s) LookHas }
{}
