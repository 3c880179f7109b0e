//! What one node keeps by its own steps alone, whatever it hears.
ghost use Rattle.raft_node.specs.Parts.{keeper};
ghost use Rattle.raft_node.specs.Sound.{BeginsSound, StaysSound, TurnKeepsApplied};
ghost use Rattle.raft_node.specs.Sound.{SentGrows, SentIsNotRead};
ghost use Rattle.raft_node.specs.SteppingTogether.{OneIsAStep};

use crate::described::Described;
use machine_laws::{Hosted, Machine};
use stable_store::Stable;

/// A node begins sound, and whatever happens to it keeps it so: what it applied is committed, and is in its log; a live
/// session is of the term in which it leads; it knows a leader only while it follows; its lists by node are of the
/// group's size, and while it leads its next places and matches are within its log.
pub fn a_node_stays_sound<M: Hosted>()
    ensures begins { BeginsSound M.Command }
    ensures stays { (s : M.Setup) → StaysSound (⟦<M as Described>⟧.machine s) }
{}

/// In a turn of a sound node the bodies that were applied stay in their places, and at most one more is applied.
pub fn a_turn_keeps_what_was_applied<M: Hosted>()
    ensures { (s : M.Setup) → TurnKeepsApplied (⟦<M as Described>⟧.machine s) }
{}

/// What a node sent stays at its number, restarts included, and what it sends names it. Nothing reads what was sent: each
/// event only adds to it.
pub fn what_was_sent_stays_and_is_not_read<M: Hosted>()
    ensures grows { (s : M.Setup) → SentGrows (⟦<M as Described>⟧.machine s) }
    ensures is_not_read { (s : M.Setup) → SentIsNotRead (⟦<M as Described>⟧.machine s) }
{}

/// Several inputs of a leader with one save, if there is only one, are a step by it; if memory runs out for its answer,
/// that may be the answer even if the input is refused.
pub fn one_input_alone_is_a_step<M: Hosted, S: Stable<M::Command>>()
    ensures { (s : M.Setup) → OneIsAStep (⟦<M as Described>⟧.machine s) M.Setup M
        (keeper S.saved S.may_stand S.condition) }
{}
