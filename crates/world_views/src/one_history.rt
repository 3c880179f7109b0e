//! That views belong to one history of their group, from new stores on.
ghost use Rattle.world_views.specs.Laws.{AllAgree, AllAgreeBefore, HasHistory, OpeningsGoOn};
ghost use Rattle.world_views.specs.Laws.{AppliesAreAgreed, LooksAreAgreed, OverOpened, RecordsReplay};
ghost use Rattle.world_views.specs.Laws.{TurnsAreEvents};

use machine_laws::Hosted;
use raft_node::Described;

/// If the stores were new at the openings, no event comes before these; if the stores held what some list of events
/// leaves, that list and a restart of every node come before.
pub fn openings_go_on_from_events<M: Hosted>()
    ensures { (s : M.Setup) → OpeningsGoOn (⟦<M as Described>⟧.machine s) }
{}

/// If the openings are as some list of events leaves the nodes, that list and after it the events of all records, by
/// rising ticket, lead from new stores to the states of all views, and likewise at each moment on the way. What comes
/// out of each event is what came out by its own view.
pub fn views_have_one_history<M: Hosted>()
    ensures { (s : M.Setup) → OverOpened (⟦<M as Described>⟧.machine s) HasHistory }
{}

/// The record of all views, each turn by rising ticket and with what came out of it by its own view, is the record of a run
/// of the group: its events are the one history, and a run of these brings out what the record has.
pub fn merged_records_replay<M: Hosted>()
    ensures { (s : M.Setup) → OverOpened (⟦<M as Described>⟧.machine s) RecordsReplay }
{}

/// Of what any two opened nodes have committed one list begins the other; and so of what they had committed before any
/// two tickets.
pub fn committed_lists_agree<M: Hosted>()
    ensures now { (s : M.Setup) → OverOpened (⟦<M as Described>⟧.machine s) AllAgree }
    ensures before { (s : M.Setup) → OverOpened (⟦<M as Described>⟧.machine s) AllAgreeBefore }
{}

/// Each turn of a view is an event of the one history, at the state to which the view's earlier turns lead, with the
/// same result. So what holds for every list of events holds for running nodes: a look that a node answered played what
/// follows from the agreed list at its place, and what left a node when it applied a place is of the agreed list too.
pub fn turns_are_events_of_the_history<M: Hosted>()
    ensures events { (s : M.Setup) → OverOpened (⟦<M as Described>⟧.machine s) TurnsAreEvents }
    ensures looks { (s : M.Setup) → OverOpened (⟦<M as Described>⟧.machine s) LooksAreAgreed }
    ensures applies { (s : M.Setup) → OverOpened (⟦<M as Described>⟧.machine s) AppliesAreAgreed }
{}
