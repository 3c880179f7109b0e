//! Stores that come late.
ghost use Rattle.std.specs.Prelude.{IfOk};

use raft_node::Cause;

/// Opens the store of a node that is not there when its cluster starts, such as a folder that can't be read or that
/// another program has locked.
///
/// The node counts as down until then. Its worker calls `open`, in its own thread, each time the node is to be started
/// again, and never in between: the driver decides on the waits. Once a store was given and the node was started over
/// it, `open` is not called any more. If the node can't be started over the store, that store is dropped, and the next
/// call opens it anew.
///
/// What is proved of a late node is proved over any opener: nothing is known of the store but `gives`.
pub trait Opener<S>: Drop {
    /// That it may give this store, now or later.
    ghost gives: { Self → S → Type 0 };

    /// The store, or why it can't be had now. It checks all that is checked of a store that is there when the cluster
    /// starts: that it is the store of this node, and of this group.
    fn open(&mut self) -> Result<S, Cause>
        ensures given { IfOk result (gives self.old) }
        ensures later { (store : S) → gives self.new store → gives self.old store };
}

/// The opener of a cluster whose stores are all there when it starts.
#[derive(Drop)]
pub struct NoOpener;

impl<S> Opener<S> for NoOpener {
    ghost gives = { λ _ _. ⊥ };

    fn open(&mut self) -> Result<S, Cause> {
        Err(Cause::Store)
    }
}

/// The store of a node when its cluster starts.
#[derive(Drop)]
pub enum PartStore<S, L> {
    /// It is there.
    Ready(S),
    /// It is not, and this opens it later.
    Late(L),
}
