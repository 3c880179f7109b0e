//! That what leaves the nodes follows from the agreed list.
ghost use Rattle.world_run.specs.Laws.{ApplyIsFaithful, LooksAreFaithful, NoMoreLeaves, OverAll};

use machine_laws::Hosted;
use raft_node::Described;

/// A look that is answered at a place plays what follows from the first bodies of the agreed list, on every node. What
/// leaves a node when it applies a place is what the agreed list brings about there, as far as it may leave that node.
pub fn what_leaves_is_of_the_agreed_list<M: Hosted>()
    ensures looks { (s : M.Setup) → OverAll (⟦<M as Described>⟧.machine s) LooksAreFaithful }
    ensures applies { (s : M.Setup) → OverAll (⟦<M as Described>⟧.machine s) ApplyIsFaithful }
{}

/// For every test of effects: over all nodes and all their runs together, no more of those that pass it leave than the
/// agreed list brings about. What the agreed list brings about once leaves at most once.
pub fn no_more_leaves_than_is_agreed<M: Hosted>()
    ensures { (s : M.Setup) → OverAll (⟦<M as Described>⟧.machine s) NoMoreLeaves }
{}
