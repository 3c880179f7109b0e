//! An upstream in memory.
use irc_line::Line;
use node_cells::{Upstream, UpstreamFault};

/// Takes nothing: each line is lost.
#[derive(Drop)]
pub struct NoUpstream {
    failures: u64,
}

impl NoUpstream {
    pub fn new() -> NoUpstream {
        NoUpstream { failures: 0 }
    }
}

impl Upstream for NoUpstream {
    ghost use Rattle.std.specs.Prelude.{[]};

    ghost tally = { λ u. record { handed = []; failures = u.failures } };

    fn hand(&mut self, _number: u64, _line: &Line) -> Result<(), UpstreamFault> {
        if self.failures < u64::MAX {
            self.failures += 1;
        }
        Err(UpstreamFault::Lost)
    }

    fn failures(&self) -> u64 {
        self.failures
    }
}
