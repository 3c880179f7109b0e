//! What a round of a worker gathers.
ghost use Rattle.std.specs.Prelude.{◌≡◌, ◌++◌, ◌∷◌, [], ◌↔◌, IsFalse, None, Some};
ghost use Rattle.node_threads.specs.Reports.{told_fault};
ghost use Rattle.node_threads.specs.Rounds.{first_fault, leaving, with_refusals, woken_by};

use crate::worker_loop::telling::told_fault;
use node_cells::CellFault;
use node_steps::Refusal;
use raft_node::NodeFault;
use std::alloc::Global;
use std::mem::replace;

/// What a round of a worker gathers, for its end.
#[derive(Drop)]
pub struct Round<E> {
    /// The effects to report, in order.
    pub effects: Vec<E>,
    /// The effects to report after those, if memory ran out when they were added: they are reported next.
    pub further: Vec<E>,
    /// Why a turn did nothing: the first such fault.
    pub fault: Option<NodeFault>,
    /// Whether each node is to look into its mailboxes, node 1 first.
    pub woken: [bool; 7],
    /// Whether a lagging node answered.
    pub is_behind: bool,
}

impl<E: Drop> Round<E> {
    pub fn new(alloc: Global) -> Self {
        Round {
            effects: Vec::new(alloc),
            further: Vec::new(alloc),
            fault: None,
            woken: [false; 7],
            is_behind: false,
        }
    }

    /// Adds the reported effects of a turn after those of earlier ones.
    pub fn leave(&mut self, effects: Vec<E>)
        ensures leaving { self.old.further.items ≡ []
            → leaving self.new ≡ leaving self.old ++ effects.items }
        ensures fault { self.new.fault ≡ self.old.fault }
        ensures woken { self.new.woken ≡ self.old.woken }
        ensures behind { self.new.is_behind ≡ self.old.is_behind }
    {
        let mut effects = effects;
        if self.effects.is_empty() {
            self.effects = effects;
        } else if self.effects.append(&mut effects).is_err() {
            self.further = effects;
        }
    }

    /// A turn did nothing.
    pub fn fail(&mut self, fault: CellFault)
        ensures { self.new ≡ record self.old
            { fault = Some (first_fault self.old.fault (told_fault fault)) } }
    {
        if self.fault.is_none() {
            self.fault = Some(told_fault(fault));
        }
    }

    /// Counts each refusal among these answers as a turn that did nothing.
    pub fn fail_each(&mut self, answers: &[Result<(), Refusal>])
        ensures { self.new ≡ with_refusals answers.now self.old }
    {
        for answer in answers {
            if let Err(refusal) = answer {
                self.fail(CellFault::Node(NodeFault::Refused(*refusal)));
            }
        }
    }

    /// The node of this number is to look into its mailboxes.
    pub fn wake(&mut self, node: u8)
        ensures { self.new ≡ record self.old { woken = woken_by self.old.woken (node ∷ []) } }
    {
        if 1 <= node && node <= 7 {
            self.woken[node as usize - 1] = true;
        }
    }

    /// All of these nodes are to look into their mailboxes.
    pub fn wake_each(&mut self, nodes: &[u8])
        ensures { self.new ≡ record self.old { woken = woken_by self.old.woken nodes.now } }
    {
        for node in nodes {
            self.wake(*node);
        }
    }

    /// Whether there is more to report than fits in one report.
    pub fn has_further(&self) -> bool
        ensures { IsFalse result ↔ (self.now.further.items ≡ []) }
    {
        !self.further.is_empty()
    }

    /// Whether there is something to report, whatever the state of the node.
    pub fn has_news(&self) -> bool
        ensures { IsFalse result ↔ (self.now.effects.items ≡ []) × (self.now.fault ≡ None) }
    {
        !self.effects.is_empty() || self.fault.is_some()
    }

    /// What was gathered was reported, except what is reported next.
    pub fn go_on(&mut self, alloc: Global)
        ensures leaving { leaving self.new ≡ self.old.further.items }
        ensures fault { self.new.fault ≡ None }
        ensures woken { self.new.woken ≡ self.old.woken }
        ensures behind { self.new.is_behind ≡ self.old.is_behind }
    {
        self.effects = replace(&mut self.further, Vec::new(alloc));
        self.fault = None;
    }
}
