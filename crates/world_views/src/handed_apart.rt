//! That no number is handed out by two nodes.
ghost use Rattle.world_views.specs.Laws.{AllLeaveNoMore, HandedApart, OverOpened};

use machine_laws::Hosted;
use raft_node::Described;

/// No more effects of a kind leave all nodes together, all their runs included, than the agreed list of their one
/// history brings about. What that list brings about once leaves at most one of them, and once.
pub fn no_more_leaves_than_is_agreed<M: Hosted>()
    ensures { (s : M.Setup) → OverOpened (⟦<M as Described>⟧.machine s) AllLeaveNoMore }
{}

/// For a machine whose numbers of handed lines are all different over every list of events, like the bouncer's: no node
/// hands a number twice, and no number is handed out by two nodes.
pub fn no_number_is_handed_by_two_nodes<M: Hosted>()
    ensures { (s : M.Setup) → OverOpened (⟦<M as Described>⟧.machine s) HandedApart }
{}
