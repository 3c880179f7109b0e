//! Where other threads put notes for a node.
ghost use Rattle.std.specs.Prelude.{◌≡◌};

use crate::job::Job;
use crate::node_handle::NodeHandle;
use crossbeam_channel::Sender;
use machine_laws::{Hosted, Machine};
use std::alloc::Global;

/// Where another thread puts notes for a node, while the cluster's own thread waits. It may outlive
/// the cluster.
#[derive(Drop)]
pub struct Inlet<M: Hosted> {
    pub(crate) alloc: Global,
    pub(crate) inbox: Sender<Job<M>>,
}

impl<M: Hosted> Inlet<M> {
    /// The node that gets them.
    pub fn node(&self) -> NodeHandle<'_, M, Sender<Job<M>>>
        ensures { result.inbox.now ≡ self.now.inbox }
    {
        NodeHandle::new(self.alloc, &self.inbox)
    }
}
