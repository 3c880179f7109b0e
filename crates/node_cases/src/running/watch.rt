//! What leaves a node.
ghost use Rattle.std.specs.Prelude.{◌≡◌, IfErr, OnOk, ⊤};

use crate::running::clusters::Counter;
use bouncer_tower::TowerEffect;
use node_notes::Report;
use node_threads::Outlet;
use request_once::Answer;
use std::sync::Wait;
use std::sync::atomic::Ordering;

/// Counts what takes effect.
#[derive(Drop)]
pub struct Watch {
    pub done: Counter,
    /// How many requests were answered as a repeat or a gap.
    pub refused: Counter,
}

impl Outlet<TowerEffect> for Watch {
    ghost use Rattle.std.specs.Prelude.{⊤};

    ghost has_taken = { λ _ _ _. ⊤ };

    fn report<R: Wait>(
        &mut self,
        _rt: &R,
        report: Report<TowerEffect>,
    ) -> Result<(), Report<TowerEffect>>
        ensures taken { OnOk result ⊤ }
        ensures back { IfErr result (λ back. back ≡ report) }
    {
        for effect in &report.effects {
            match effect {
                Answer::Done(_, number) => self.done.store(*number, Ordering::SeqCst),
                Answer::Repeat(_, _) | Answer::Gap(_, _) => {
                    self.refused.fetch_add(1, Ordering::SeqCst);
                }
                Answer::Effect(_) | Answer::Marked(_) => {}
            }
        }
        Ok(())
    }
}
