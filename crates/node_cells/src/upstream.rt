//! Where a node's lines go.
ghost use Rattle.std.specs.Prelude.{◌≡◌, OnOk, OnErr};
ghost use Rattle.node_cells.specs.Upstreams.{Tally, failed, taken};

use irc_line::Line;
use thiserror::Error;

/// Why a line was not handed out.
#[derive(Clone, Copy, Debug, Drop, PartialEq, Eq, Error)]
pub enum UpstreamFault {
    /// There is no connection that takes it.
    #[error("the line is lost")]
    Lost,
    #[error("out of memory")]
    Memory,
}

/// Takes the numbered lines that a node hands out upstream.
pub trait Upstream: Drop {
    /// What was handed out so far, in order, and how many calls failed: a count that stops at the
    /// greatest u64.
    ghost tally: { Self → Tally };

    /// Hands out a line with its number.
    fn hand(&mut self, number: u64, line: &Line) -> Result<(), UpstreamFault>
        ensures ok { OnOk result (tally self.new ≡ taken (number, line.now) (tally self.old)) }
        ensures err { OnErr result (tally self.new ≡ failed (tally self.old)) };

    /// How many calls failed.
    fn failures(&self) -> u64
        ensures { result ≡ (tally self.now).failures };
}
