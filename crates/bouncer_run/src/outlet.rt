//! What leaves a node, sent to the loop.
ghost use Rattle.std.specs.Prelude.{◌≡◌, IfErr, OnOk, ⊤};

use crate::inlet::{Inlet, LoopMessage};
use bouncer_tower::TowerEffect;
use node_notes::Report;
use node_threads::Outlet;
use std::sync::Wait;

/// Sends to the loop what leaves a node.
#[derive(Drop)]
pub struct LoopOutlet {
    pub inlet: Inlet,
}

impl Outlet<TowerEffect> for LoopOutlet {
    ghost use Rattle.std.specs.Prelude.{⊤};

    // no clause says what is in a channel
    ghost has_taken = { λ _ _ _. ⊤ };

    fn report<R: Wait>(
        &mut self,
        rt: &R,
        report: Report<TowerEffect>,
    ) -> Result<(), Report<TowerEffect>>
        ensures taken { OnOk result ⊤ }
        ensures back { IfErr result (λ back. back ≡ report) }
    {
        match self.inlet.tell(rt, LoopMessage::Report(report)) {
            Ok(_) => Ok(()),
            Err(LoopMessage::Report(report)) => Err(report),
            Err(_) => unreachable!(),
        }
    }
}
