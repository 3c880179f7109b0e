//! That runs of a node and sessions are kept apart.
ghost use Rattle.world_run.specs.Laws.{AppliedStays, AskedInItsRun, EachIsSound, NewRunNewBoot};
ghost use Rattle.world_run.specs.Laws.{NewIdIsNew, OverAll, SessionsApart};

use machine_laws::Hosted;
use raft_node::Described;

/// At every moment each node is sound: so its live session, if any, is of the term in which it leads.
pub fn each_node_is_sound<M: Hosted>()
    ensures { (s : M.Setup) → OverAll (⟦<M as Described>⟧.machine s) EachIsSound }
{}

/// Each restart and each stop begins a run with a boot of its own, one more than the last; a body of a client or of a
/// run is taken by that node in that run alone, so no origin belongs to two runs; within a run what was applied stays,
/// in its place.
pub fn runs_are_apart<M: Hosted>()
    ensures boots { (s : M.Setup) → OverAll (⟦<M as Described>⟧.machine s) NewRunNewBoot }
    ensures origins { (s : M.Setup) → OverAll (⟦<M as Described>⟧.machine s) AskedInItsRun }
    ensures applied { (s : M.Setup) → OverAll (⟦<M as Described>⟧.machine s) AppliedStays }
{}

/// No two runs of a node and no two nodes have live sessions of the same term, and a session that is opened has an id
/// that no session had before, at any node.
pub fn sessions_are_apart<M: Hosted>()
    ensures apart { (s : M.Setup) → OverAll (⟦<M as Described>⟧.machine s) SessionsApart }
    ensures new { (s : M.Setup) → OverAll (⟦<M as Described>⟧.machine s) NewIdIsNew }
{}
