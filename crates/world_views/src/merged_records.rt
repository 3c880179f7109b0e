//! That the records of all nodes are one list of events, which leads to the nodes' states.
ghost use Rattle.world_views.specs.Laws.{MergedIsOne, RecordsMerge, SentIsNotRead};

use machine_laws::Hosted;
use raft_node::Described;

/// What happens to a node, and what comes out, does not depend on what it had sent before: each event only adds to that.
pub fn what_was_sent_is_not_read<M: Hosted>()
    ensures { (s : M.Setup) → SentIsNotRead (⟦<M as Described>⟧.machine s) }
{}

/// If views keep the rule and their stores are honest, the events of all records, by rising ticket and each once, lead
/// from the nodes as they were opened to the states of all views: each event happens to its own node alone, and a
/// message that it brings was sent before. A node that was not opened stays, whatever it is.
pub fn records_merge<M: Hosted>()
    ensures { (s : M.Setup) → RecordsMerge (⟦<M as Described>⟧.machine s) }
{}

/// There is one such list: two lists of events, each by rising ticket, that have the same turns of each node are the same.
pub fn records_merge_in_one_way<M: Hosted>()
    ensures { MergedIsOne M.Command M.Line M.Target }
{}
