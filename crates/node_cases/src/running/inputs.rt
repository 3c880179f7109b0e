//! How often each input came to a node.
use crate::running::request::Request;
use machine_laws::{Hosted, Machine};
use node_cells::NodeRecord;
use raft_log::NodeId;
use std::alloc::{AllocError, Global};
use wire_bytes::Wire;
use world_views::{NodeEvent, NodeInput};

/// How often each input but `Apply` and messages came to a node.
#[derive(Clone, Copy, Debug, PartialEq, Eq)]
pub struct Inputs {
    pub timeouts: u64,
    pub beats: u64,
    pub attaches: u64,
    pub detaches: u64,
    pub says: u64,
    pub looks: u64,
    pub restarts: u64,
    /// All other inputs.
    pub others: u64,
}

impl Inputs {
    /// No input.
    pub fn none() -> Inputs {
        Inputs {
            timeouts: 0,
            beats: 0,
            attaches: 0,
            detaches: 0,
            says: 0,
            looks: 0,
            restarts: 0,
            others: 0,
        }
    }

    /// How often each is in a record.
    pub fn of<M: Hosted>(
        alloc: Global,
        record: &NodeRecord<M::Command, M::Line, M::Target, M::Effect, M::Played>,
    ) -> Result<Inputs, AllocError> {
        let mut inputs = Inputs::none();
        for turn in &record.turns {
            match &turn.event {
                NodeEvent::Does(input) => inputs.count::<M>(alloc, record.node, input)?,
                NodeEvent::Look(_, _) => inputs.looks = inputs.looks.saturating_add(1),
                NodeEvent::Restart => inputs.restarts = inputs.restarts.saturating_add(1),
                NodeEvent::StopIn(_, _) => inputs.others = inputs.others.saturating_add(1),
            }
        }
        Ok(inputs)
    }

    /// One more input of a node.
    fn count<M: Hosted>(
        &mut self,
        alloc: Global,
        node: NodeId,
        input: &NodeInput<M::Command, M::Line>,
    ) -> Result<(), AllocError> {
        match input {
            NodeInput::Deliver(_) | NodeInput::Apply => {}
            NodeInput::Timeout => self.timeouts = self.timeouts.saturating_add(1),
            NodeInput::Beat => self.beats = self.beats.saturating_add(1),
            NodeInput::Ask(body) => match request_of::<M>(alloc, node, body)? {
                Some(request) => self.count_request(request),
                None => self.others = self.others.saturating_add(1),
            },
            _ => self.others = self.others.saturating_add(1),
        }
        Ok(())
    }

    /// One more request of the node's client.
    pub fn count_request(&mut self, request: Request) {
        match request {
            Request::Attach => self.attaches = self.attaches.saturating_add(1),
            Request::Detach => self.detaches = self.detaches.saturating_add(1),
            Request::Say => self.says = self.says.saturating_add(1),
        }
    }
}

/// The request of the node's client that has this body, if one has.
fn request_of<M: Hosted>(
    alloc: Global,
    node: NodeId,
    body: &M::Command,
) -> Result<Option<Request>, AllocError> {
    M::fits(body);
    let mut bytes = Vec::new(alloc);
    body.put(&mut bytes)?;
    for request in Request::ALL {
        if request.spelled(alloc, node)?.as_slice() == bytes.as_slice() {
            return Ok(Some(*request));
        }
    }
    Ok(None)
}
