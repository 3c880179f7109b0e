//! What workers pass before each turn.
use raft_log::NodeId;
use std::sync::Wait;

/// What a worker passes before each turn of its node; tests hold workers there.
pub trait Gate {
    /// A worker of this node comes to its turn of this number, from 1 on.
    fn pass<R: Wait>(&self, rt: &R, node: u8, turn: u64);
}

/// Holds no worker.
#[derive(Drop)]
pub struct OpenGate;

impl Gate for OpenGate {
    fn pass<R: Wait>(&self, _rt: &R, _node: u8, _turn: u64) {}
}

/// A worker of this node comes to several more turns.
pub(crate) fn pass_gates<R: Wait, G: Gate>(
    rt: &R,
    gate: &G,
    node: NodeId,
    turns: &mut u64,
    count: usize,
) {
    for _ in 0..count {
        pass_gate(rt, gate, node, turns);
    }
}

/// A worker of this node comes to one more turn.
pub(crate) fn pass_gate<R: Wait, G: Gate>(rt: &R, gate: &G, node: NodeId, turns: &mut u64) {
    *turns = turns.saturating_add(1);
    gate.pass(rt, node.value(), *turns);
}
