//! What a cell shows.
ghost use Rattle.std.specs.Prelude.{true, ◌≡◌, ◌↔◌, suc, None};
ghost use Rattle.raft_node.specs.Parts.{applied_bodies};
ghost use Rattle.recorder.specs.NodeLines.{fields_of};
ghost use Rattle.node_cells.specs.declared.phase.Phase.TheVariants.{Up};
ghost use Rattle.node_cells.specs.Causes.{down_in};
ghost use Rattle.node_cells.specs.Cells.{IsIn, view_in};

use crate::cell::NodeCell;
use crate::phase::Phase;
use crate::record::Recording;
use crate::upstream::Upstream;
use machine_laws::{Hosted, Machine, Marking};
use raft_log::{GroupSize, NodeId, NodeState};
use raft_node::Cause;
use recorder::NodeFields;
use stable_store::Stable;
use wire_bytes::Number;

impl<M: Marking, S: Stable<M::Command>, U: Upstream> NodeCell<M, S, U> {
    /// Why the node is down, if it is.
    pub fn down(&self) -> Option<Cause>
        ensures up { (result ≡ None) ↔ (self.now.parts.phase ≡ Up) }
        ensures cause { result ≡ down_in self.now.parts }
    {
        match (&self.phase, self.node.down()) {
            (Phase::Up, _) => None,
            (_, Some(cause)) => Some(cause),
            (_, None) => Some(Cause::Memory),
        }
    }

    #[tactic(auto, using(crate::proofs::Showing::id_is))]
    pub fn id(&self) -> NodeId
        ensures pass { result ≡ suc self.now.parts.pass.node }
        ensures view { result ≡ suc (view_in self.now.parts).node }
    {
        self.node.id()
    }

    /// How many nodes the ether is for.
    pub fn size(&self) -> GroupSize
        ensures { result ≡ self.now.parts.ether.size }
    {
        self.book.size()
    }

    /// Whether turns are recorded.
    pub fn recording(&self) -> Recording
        ensures { result ≡ self.now.parts.recording }
    {
        self.book.recording
    }

    /// The fields of the state that the cell shows.
    pub fn fields(&self) -> NodeFields
        ensures shown { result ≡ self.now.parts.shown }
        ensures view { (view_in self.now.parts).honest ≡ true
            → result ≡ fields_of (view_in self.now.parts).state }
    {
        self.shown
    }

    /// The node's state, or, if it is down, the one from before it went down.
    #[tactic(auto, using(crate::proofs::Showing::is_up))]
    pub fn state(&self) -> &NodeState<M::Command>
        ensures state { result.now ≡ self.now.parts.node.state }
        ensures view { ((view_in self.now.parts).honest ≡ true)
            → (self.now.parts.phase ≡ Up) → IsIn result.now (view_in self.now.parts).state }
    {
        self.node.state()
    }

    /// The number of the line to be claimed next, by what the node applied, while it is up.
    pub fn next_claim(&self) -> Option<Number>
        ensures { self.now.parts.node.down ≡ None
            → result ≡ M.next_claim self.now.parts.node.setup
            (applied_bodies self.now.parts.node.state) }
    {
        self.node.next_claim()
    }

    /// Where its lines go.
    pub fn upstream(&self) -> &U
        ensures { result.now ≡ self.now.parts.upstream }
    {
        &self.upstream
    }
}
