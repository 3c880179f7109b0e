//! Laws over every list of events of a group, for bodies of any type.
ghost use Rattle.agreement.specs.Laws.{AgreedGrows, AllBrought, InAgreed, LeadersHold, LogsMatch};
ghost use Rattle.agreement.specs.Laws.{OneLeader, OneList, OneRun, OneVote};
ghost use Rattle.agreement.specs.Laws.{FullLeads, LeadsWithBlank, StopKeepsBlank, UpToDateHolds};

/// Over every list of timeouts, deliveries, losses, repeats, reorderings, requests, restarts and stops within a step,
/// in a group of any size. Figure 3 of Raft's paper: election safety, leader append-only and log matching (`logs_match`),
/// leader completeness (`leaders_hold`), state machine safety (`one_list`, `in_agreed`).
pub fn the_nodes_agree<B>()
    ensures one_list { (blank : B) → OneList B blank }
    ensures in_agreed { (blank : B) → InAgreed B blank }
    ensures agreed_grows { (blank : B) → AgreedGrows B blank }
    ensures all_brought { (blank : B) → AllBrought B blank }
    ensures one_leader { (blank : B) → OneLeader B blank }
    ensures one_run { (blank : B) → OneRun B blank }
    ensures one_vote { (blank : B) → OneVote B blank }
    ensures logs_match { (blank : B) → LogsMatch B blank }
    ensures leaders_hold { (blank : B) → LeadersHold B blank }
{}

/// A node's log that is at least as up to date as that of each node of a majority holds all that any node committed: a
/// majority saved that, and any two majorities share a node. From this log a group may go on after all nodes stopped,
/// or begin anew, even if the stores outside that majority are lost (section 5.4.1).
pub fn the_most_up_to_date_log_holds_all<B>()
    ensures { (blank : B) → UpToDateHolds B blank }
{}

/// Whatever makes a node a leader appends a blank entry of its term to its log, in the same step, so that a stop after
/// that step keeps it. A full log takes none.
pub fn a_new_leader_appends_a_blank_entry<B>()
    ensures leads { (blank : B) → LeadsWithBlank B blank }
    ensures full { (blank : B) → FullLeads B blank }
    ensures stop { (blank : B) → StopKeepsBlank B blank }
{}
