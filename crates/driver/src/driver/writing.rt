//! Lines that go out in a session, as the pace allows it.
ghost use Rattle.std.specs.Prelude.{◌≡◌, ◌-◌, IfOk, OnOk, is_some, slice_get};
ghost use Rattle.driver.specs.Writing.{Goes, WriteLines, WritesLine, are_due, may_claim, piece_of};
ghost use Rattle.driver.specs.declared.driver.writing.TheConstants.{MOST_AT_ONCE};

use crate::driver::Driver;
use crate::order::Now;
use crate::outgoing::Piece;
use raft_log::NodeId;
use std::alloc::AllocError;

/// The most lines that go out at once.
// as many as a configuration may allow at once; without pacing, more follow a moment later
const MOST_AT_ONCE: usize = 100;

impl Driver {
    /// Whether a line may be claimed: no said line waits, and it could go out at once or would be dropped.
    pub(crate) fn may_claim(&self, now: &Now) -> bool
        ensures { result ≡ may_claim self.now now.now.ms }
    {
        !self.link.has_said() && (self.dropping.is_some() || self.pace.may_go(now.ms))
    }

    /// Sends what waits in this node's session, as far as the pace allows it.
    pub(crate) fn write_lines(&mut self, now: &Now, node: NodeId) -> Result<(), AllocError>
        ensures { OnOk result (WriteLines MOST_AT_ONCE now.now.ms node self.old self.new) }
    {
        for _ in 0..MOST_AT_ONCE {
            if !self.write_line(now, node)? {
                return Ok(());
            }
        }
        Ok(())
    }

    /// Sends the next piece, if something waits and the pace allows it. Returns whether it did.
    fn write_line(&mut self, now: &Now, node: NodeId) -> Result<bool, AllocError>
        ensures goes { IfOk result (λ goes. goes ≡ is_some (piece_of now.now.ms node self.old)) }
        ensures written { OnOk result (WritesLine now.now.ms node self.old self.new) }
    {
        if !self.pace.may_go(now.ms) {
            return Ok(false);
        }
        let are_due = self.are_due(node);
        let Some(piece) = self.link.next_piece(are_due) else {
            return Ok(false);
        };
        self.send_piece(now, piece)?;
        Ok(true)
    }

    /// Sends a piece to the server. It no longer waits.
    fn send_piece(&mut self, now: &Now, piece: Piece) -> Result<(), AllocError>
        ensures { OnOk result (Goes now.now.ms piece self.old self.new) }
    {
        self.pace.go(now.ms);
        if piece.is_said() {
            self.unheard = self.unheard.saturating_add(1);
        }
        self.link.write(piece, &mut self.orders)
    }

    /// Whether questions are due: nothing waits to be claimed, as far as is known.
    pub(crate) fn are_due(&self, node: NodeId) -> bool
        ensures { result ≡ are_due (slice_get self.now.monitors (node - 1)) }
    {
        match self.monitors.get(node.value() as usize - 1) {
            Some(monitor) => !monitor.has_line(),
            None => true,
        }
    }
}
