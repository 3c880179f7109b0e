//! What rows and arrows show.
ghost use Rattle.world_app.specs.DiagramLaws.{ArrowsLeaveWhereSent, RowsShowWorlds};

use machine_laws::Hosted;
use raft_node::Described;

/// The row of each event shows the node to which it happened in the worlds before and after it.
pub fn rows_show_worlds<M: Hosted>()
    ensures { (s : M.Setup) → RowsShowWorlds (⟦<M as Described>⟧.machine s) }
{}

/// The arrow of each message starts from the first row after which its sender had sent that many.
pub fn arrows_leave_where_sent<M: Hosted>()
    ensures { (s : M.Setup) → ArrowsLeaveWhereSent (⟦<M as Described>⟧.machine s) }
{}
