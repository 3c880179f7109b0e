//! That the nodes agree, over every list of events.
ghost use Rattle.world_run.specs.Laws.{AgreedGrows, EachBrought, InAgreed, OneList, OverAll};
ghost use Rattle.world_run.specs.Laws.{LeadersHold, LogsMatch, OneLeader, OneVote, UpToDateHolds};
ghost use Rattle.world_run.specs.Laws.{FullLeads, LeadsWithBlank, StopKeepsBlank};

use machine_laws::Hosted;
use raft_node::Described;

/// For what any two nodes commit at any two moments, one list begins the other; what a node commits begins the agreed
/// list, of which nothing is ever taken back, and each body in it is blank or was brought by an event. State machine
/// safety of Raft's paper, Figure 3.
pub fn committed_lists_agree<M: Hosted>()
    ensures one_list { (s : M.Setup) → OverAll (⟦<M as Described>⟧.machine s) OneList }
    ensures in_agreed { (s : M.Setup) → OverAll (⟦<M as Described>⟧.machine s) InAgreed }
    ensures agreed_grows { (s : M.Setup) → OverAll (⟦<M as Described>⟧.machine s) AgreedGrows }
    ensures each_brought { (s : M.Setup) → OverAll (⟦<M as Described>⟧.machine s) EachBrought }
{}

/// A term has at most one leader, at all moments together, and it leads in one run. Election safety of Raft's paper,
/// Figure 3.
pub fn one_leader_a_term<M: Hosted>()
    ensures { (s : M.Setup) → OverAll (⟦<M as Described>⟧.machine s) OneLeader }
{}

/// A node's vote in a term stays, restarts included. Raft's paper, section 5.2.
pub fn a_vote_is_never_changed<M: Hosted>()
    ensures { (s : M.Setup) → OverAll (⟦<M as Described>⟧.machine s) OneVote }
{}

/// Two logs that have the same term at a place are the same up to it. Log matching of Raft's paper, Figure 3.
pub fn logs_match<M: Hosted>()
    ensures { (s : M.Setup) → OverAll (⟦<M as Described>⟧.machine s) LogsMatch }
{}

/// What a node commits is in the log of each leader of a later term. Leader completeness of Raft's paper, Figure 3.
pub fn later_leaders_hold_what_is_committed<M: Hosted>()
    ensures { (s : M.Setup) → OverAll (⟦<M as Described>⟧.machine s) LeadersHold }
{}

/// A node's log that is at least as up to date as that of each node of a majority holds all that any node committed: a
/// group that stopped may go on from that log, or begin anew from it, even if the stores outside that majority are
/// lost. Raft's paper, section 5.4.1.
pub fn the_most_up_to_date_log_holds_all<M: Hosted>()
    ensures { (s : M.Setup) → OverAll (⟦<M as Described>⟧.machine s) UpToDateHolds }
{}

/// Whatever makes a node a leader appends a blank entry of its term to its log, in the same step; a stop after that
/// step keeps the entry, a stop before it nothing. A full log takes none, and its node leads without. Raft's paper,
/// section 8.
pub fn a_new_leader_appends_a_blank_entry<M: Hosted>()
    ensures leads { (s : M.Setup) → LeadsWithBlank (⟦<M as Described>⟧.machine s) }
    ensures full { (s : M.Setup) → FullLeads (⟦<M as Described>⟧.machine s) }
    ensures stop { (s : M.Setup) → StopKeepsBlank (⟦<M as Described>⟧.machine s) }
{}
