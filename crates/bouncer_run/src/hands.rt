//! Lines that a node hands out, sent to the loop.
ghost use Rattle.std.specs.Prelude.{◌≡◌, ◌++◌, ◌∷◌, [], IfSome};
ghost use Rattle.node_cells.specs.Upstreams.{one_more};
ghost use Rattle.bouncer_run.specs.Pasts.{lines_of};
ghost use Rattle.bouncer_run.specs.declared.inlet.LoopMessage.TheVariants.{Hand};

use crate::inlet::{Inlet, LoopMessage, Told};
use crate::past::Past;
use irc_line::Line;
use node_cells::{Upstream, UpstreamFault};
use raft_log::NodeId;
use std::alloc::Global;
use std::mem::replace;
use std::snapshot::Snapshot;
use std::sync::Wait;
use wire_bytes::Copied;

/// Sends to the loop the lines that a node hands out. The report of the same turn leaves them out,
/// so that the loop gets each line once: the lines that are sent to the loop here count as handed
/// out.
#[derive(Drop)]
pub struct Hands<R: Wait + Drop> {
    rt: R,
    alloc: Global,
    node: NodeId,
    inlet: Inlet,
    /// Each line that the loop got, with its number.
    told: Snapshot<Past>,
    /// How many lines it did not get.
    failures: u64,
}

impl<R: Wait + Drop> Hands<R> {
    /// Nothing was handed out yet.
    pub fn new(rt: R, alloc: Global, node: NodeId, inlet: Inlet) -> Hands<R>
        ensures told { lines_of result.told.value ≡ [] }
        ensures failures { result.failures ≡ 0 }
    {
        Hands {
            rt,
            alloc,
            node,
            inlet,
            told: Past::nothing(),
            failures: 0,
        }
    }

    /// The loop is sent a line of this node, if it can be.
    fn tell(&self, line: Line) -> Option<Told>
        ensures { IfSome result (λ told. told.message.value ≡ Hand self.now.node line) }
    {
        match self
            .inlet
            .tell(&self.rt, LoopMessage::Hand(self.node, line))
        {
            Ok(told) => Some(told),
            Err(_) => None,
        }
    }

    /// The loop got this line.
    fn keep(&mut self, number: u64, line: &Line, _told: Told)
        requires { _told.message.value ≡ Hand self.old.node line.now }
        ensures told { lines_of self.new.told.value
            ≡ lines_of self.old.told.value ++ (number, line.now) ∷ [] }
        ensures failures { self.new.failures ≡ self.old.failures }
    {
        let told = replace(&mut self.told, Past::nothing());
        self.told = Past::with(told, number, line);
    }

    /// One more line was not sent.
    fn miss(&mut self)
        ensures told { self.new.told ≡ self.old.told }
        ensures failures { self.new.failures ≡ one_more self.old.failures }
    {
        if self.failures < u64::MAX {
            self.failures += 1;
        }
    }
}

impl<R: Wait + Drop> Upstream for Hands<R> {
    ghost use Rattle.bouncer_run.specs.Pasts.{lines_of};

    ghost tally = { λ h. record { handed = lines_of h.told.value; failures = h.failures } };

    fn hand(&mut self, number: u64, line: &Line) -> Result<(), UpstreamFault> {
        let Ok(copy) = line.copy(self.alloc) else {
            self.miss();
            return Err(UpstreamFault::Memory);
        };
        let Some(told) = self.tell(copy) else {
            self.miss();
            return Err(UpstreamFault::Lost);
        };
        self.keep(number, line, told);
        Ok(())
    }

    fn failures(&self) -> u64 {
        self.failures
    }
}
