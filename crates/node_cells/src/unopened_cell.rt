//! A node that is not opened yet.
ghost use Rattle.std.specs.Prelude.{◌≡◌, suc};
ghost use Rattle.std.specs.Arc.{arc_value};
ghost use Rattle.raft_node.specs.Parts.{keeper};
ghost use Rattle.node_cells.specs.Unopened.{HasOpenedFrom, IsEmptyRecord, IsUntouched};

use crate::cell::{NodeCell, start_node};
use crate::record::{NodeRecord, Recording};
use crate::upstream::Upstream;
use ether::{Ether, Pass};
use machine_laws::{Hosted, Machine, Marking};
use raft_log::{NodeId, Role};
use raft_node::{Described, NodeFault};
use recorder::NodeFields;
use stable_store::Stable;
use std::alloc::Global;
use std::marker::Model;
use std::sync::Arc;
use wire_bytes::Number;

/// The start of a node's cell whose store is not there yet: its pass, to which nothing happened, and where its lines
/// will go. Nobody takes from its mailboxes meanwhile: what is posted there replaces what was there before.
///
/// `open` makes it a `NodeCell` and may be tried again and again; or it is closed unopened.
#[derive(Drop)]
pub struct UnopenedCell<M: Marking, U: Upstream> {
    alloc: Global,
    ether: Arc<Ether<M>, Global>,
    pass: Pass<M::Command, M::Line, M::Target>,
    upstream: U,
    recording: Recording,
}

impl<M: Marking, U: Upstream> Model for UnopenedCell<M, U> {
    ghost use Rattle.std.specs.Arc.{arc_value};
    ghost use Rattle.node_cells.specs.Unopened.{IsUntouched, UnopenedParts};

    ghost Value = { UnopenedParts M.Setup M.Command M.Line M.Target U };

    ghost view = { λ u. record {
      ether = arc_value u.ether;
      pass = u.pass;
      upstream = u.upstream;
      recording = u.recording;
    } };

    ghost invariant = { λ u. IsUntouched u.ether.value u.pass };
}

impl<M: Marking, U: Upstream> UnopenedCell<M, U> {
    /// The node of a pass to which nothing happened yet.
    pub fn new(
        alloc: Global,
        ether: Arc<Ether<M>, Global>,
        pass: Pass<M::Command, M::Line, M::Target>,
        upstream: U,
        recording: Recording,
    ) -> Self
        requires { IsUntouched (arc_value ether) pass }
        ensures { result ≡ record {
          ether = arc_value ether;
          pass = pass;
          upstream = upstream;
          recording = recording;
        } }
    {
        UnopenedCell {
            alloc,
            ether,
            pass,
            upstream,
            recording,
        }
    }

    /// Starts the node over a store, and opens its cell. If it can't be started, the store is dropped, and all else is
    /// unchanged: it may be tried again over another.
    pub fn open<S: Stable<M::Command>>(
        self,
        store: S,
    ) -> Result<NodeCell<M, S, U>, (UnopenedCell<M, U>, NodeFault)>
        ensures { HasOpenedFrom (keeper S.saved S.may_stand S.condition) self store result }
    {
        match start_node(self.alloc, &self.ether, &self.pass, store) {
            Ok(node) => {
                let UnopenedCell {
                    alloc,
                    ether,
                    pass,
                    upstream,
                    recording,
                } = self;
                Ok(NodeCell::over(alloc, ether, pass, node, upstream, recording))
            }
            Err(fault) => Err((self, fault)),
        }
    }

    pub fn id(&self) -> NodeId
        ensures { result ≡ suc self.now.pass.node }
    {
        self.ether.size().value();
        NodeId::new(self.pass.node() as u8 + 1)
    }

    /// What it leaves: its pass, and a record with no turns, of a node that was never started.
    pub fn leave(
        self,
    ) -> (
        Pass<M::Command, M::Line, M::Target>,
        NodeRecord<M::Command, M::Line, M::Target, M::Effect, M::Played>,
    )
        ensures pass { (result.0 ≡ self.pass) × IsUntouched self.ether result.0 }
        ensures record { IsEmptyRecord (⟦<M as Described>⟧.machine self.ether.setup) self.ether.size
            (suc self.pass.node) result.1 }
    {
        let node = self.id();
        let turns = Vec::new(self.alloc);
        let state = NodeFields {
            role: Role::Follower,
            term: Number::new(0),
            vote: None,
            log: Number::new(0),
            last: Number::new(0),
            commit: Number::new(0),
            applied: Number::new(0),
        };
        (self.pass, NodeRecord { node, turns, state })
    }
}
