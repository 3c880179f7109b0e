//! A node over a store in memory, with all that it sent.
ghost use Rattle.std.specs.Prelude.{◌≤◌};

use crate::walks::marks::mark;
use buffer_lines::Shown;
use machine_laws::Hosted;
use raft_log::{GroupSize, Message, NodeId};
use raft_node::{Cause, Input, Node, NodeFault, Output};
use recorder::{NodeFields, push_node};
use stable_store::MemoryStore;
use std::alloc::{AllocError, Global};
use std::test::Fail;
use wire_bytes::Copied;
use world_run::Outcome;

/// What comes out of an event; nothing where it was refused memory.
pub type Came<E> = Result<Option<Outcome<E, Shown>>, Fail>;

/// A node, with all that it sent.
#[derive(Drop)]
pub struct Member<M: Hosted> {
    alloc: Global,
    node: Node<M, MemoryStore<M::Command>>,
    sent: Vec<Message<M::Command>>,
}

impl<M: Hosted> Member<M> {
    /// The node of this number begins its first run.
    pub fn start(alloc: Global, id: u8, size: GroupSize, setup: &M::Setup) -> Result<Self, Fail>
        requires { (1 ≤ id) × (id ≤ size) × (id ≤ 7) }
    {
        let store = MemoryStore::new(alloc);
        let node = Node::start(alloc, NodeId::new(id), size, setup, store)?;
        Ok(Member {
            alloc,
            node,
            sent: Vec::new(alloc),
        })
    }

    /// Appends its line.
    pub fn push_line(&self, out: &mut Vec<u8>) -> Result<(), AllocError> {
        push_node(out, self.node.id(), self.node.state())
    }

    /// The message of this number, from 1, among those that it sent.
    pub fn message(&self, number: u64) -> Result<Option<Message<M::Command>>, AllocError> {
        if number == 0 || number > self.sent.len() as u64 {
            return Ok(None);
        }
        Ok(Some(self.sent[number as usize - 1].copy(self.alloc)?))
    }

    /// An input comes. A node that is refused memory is down, and is started again.
    pub fn step(
        &mut self,
        input: Input<Message<M::Command>, M::Command, M::Line>,
    ) -> Came<M::Effect> {
        let before = NodeFields::of(self.node.state());
        mark(self.alloc);
        let done = self.node.step(input);
        mark(self.alloc);
        match done {
            Ok(output) => self.keep(output),
            Err(NodeFault::Refused(refusal)) => Ok(Some(Outcome::Refused(refusal))),
            Err(NodeFault::Down(_)) => self.rise(before),
        }
    }

    /// Keeps what it sent.
    fn keep(&mut self, output: Output<M::Command, M::Effect>) -> Came<M::Effect> {
        let Output {
            mut messages,
            place,
            effects,
        } = output;
        self.sent.append(&mut messages)?;
        if place.value() == 0 {
            Ok(Some(Outcome::Quiet))
        } else {
            Ok(Some(Outcome::Left { place, effects }))
        }
    }

    /// It stops, and begins its next run. Where that is refused it is down, and is started again.
    pub fn restart(&mut self) -> Came<M::Effect> {
        let before = NodeFields::of(self.node.state());
        mark(self.alloc);
        let done = self.node.restart();
        mark(self.alloc);
        match done {
            Ok(()) => Ok(Some(Outcome::Quiet)),
            Err(_) => self.rise(before),
        }
    }

    /// It is down, shows what it was before, and is started again.
    fn rise(&mut self, before: NodeFields) -> Came<M::Effect> {
        if self.node.down() != Some(Cause::Memory) {
            return Err(Fail::from("another fault than want of memory"));
        }
        if NodeFields::of(self.node.state()) != before {
            return Err(Fail::from("a node that is down shows another state"));
        }
        self.node.restart()?;
        Ok(None)
    }
}
