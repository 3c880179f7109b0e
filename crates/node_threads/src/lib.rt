//! The nodes of one process, each in a thread of its own, which alone has the node's cell. bouncer_run and node_cases
//! use it. A cluster starts with each node over the store of its part, or says why not. What it leaves are the records
//! of one group, which replay over honest stores. A node whose store is not there yet is down until its opener gives
//! the store, and from then on it is like the others.
#![tactic(auto)]

mod beats;
mod cluster;
mod cluster_fault;
mod gate;
mod inbox;
mod inflow;
mod inlet;
mod job;
mod laws;
mod leaver;
pub mod limits;
mod node_handle;
mod opener;
mod outlet;
mod part;
mod place;
mod task;
mod worker;
mod worker_loop;

pub use beats::Beats;
pub use cluster::Cluster;
pub use cluster_fault::ClusterFault;
pub use gate::{Gate, OpenGate};
pub use inbox::Inbox;
pub use inlet::Inlet;
pub use job::Job;
pub use node_handle::NodeHandle;
pub use opener::{NoOpener, Opener, PartStore};
pub use outlet::Outlet;
pub use part::Part;
