//! The state of the session, and what waits to go out in it, in words.
ghost use Rattle.std.specs.Prelude.{◌≡◌, ◌++◌, IfOk, OnOk};
ghost use Rattle.driver.specs.Standing.{more_text, server_text, stands_for, time_text, waiting_text};

use crate::link::missing::push_number;
use crate::link::{Link, Stage};
use crate::order::Now;
use std::alloc::AllocError;

/// How many milliseconds an hour has, and a minute.
const HOUR: u64 = 3_600_000;

const MINUTE: u64 = 60_000;

impl Link {
    /// Why there is no server, or for how long it has been connected.
    pub fn standing(&self, now: &Now) -> Result<Vec<u8>, AllocError>
        ensures { IfOk result (λ text. text.items ≡ server_text self.now now.now.ms) }
    {
        if let Some(text) = self.missing(now)? {
            return Ok(text);
        }
        let mut text = Vec::from_slice(self.alloc, b"The server: connected for ")?;
        push_time(&mut text, self.stands_for(now))?;
        Ok(text)
    }

    /// For how many milliseconds the session has been open.
    fn stands_for(&self, now: &Now) -> u64
        ensures { result ≡ stands_for self.now.stage now.now.ms }
    {
        match &self.stage {
            Stage::Open(session) => now.ms.saturating_sub(session.since.since),
            Stage::Idle(_, _) | Stage::Closing(_, _) | Stage::Connecting(_) => 0,
        }
    }

    /// What waits to go out, given whether more waits in the log, and whether it is being dropped.
    pub fn waiting(&self, waits_in_log: bool, drops: bool) -> Result<Vec<u8>, AllocError>
        ensures { IfOk result (λ text.
            text.items ≡ waiting_text self.now.waiting waits_in_log drops) }
    {
        let mut text = Vec::from_slice(self.alloc, b"To go out: ")?;
        push_number(&mut text, self.waiting.said_count() as u64)?;
        text.extend_from_slice(b" lines, ")?;
        push_number(&mut text, self.waiting.question_count() as u64)?;
        text.extend_from_slice(b" questions who is in a channel.")?;
        text.extend_from_slice(more_text(waits_in_log, drops))?;
        Ok(text)
    }
}

/// In words: whether more waits in the log, or is being dropped there.
fn more_text(waits_in_log: bool, drops: bool) -> &'static [u8]
    ensures { result.now ≡ more_text waits_in_log drops }
{
    if drops {
        b" What waits in the log is being dropped."
    } else if waits_in_log {
        b" More lines wait in the log."
    } else {
        b""
    }
}

/// Appends milliseconds as hours and minutes.
fn push_time(out: &mut Vec<u8>, ms: u64) -> Result<(), AllocError>
    ensures { OnOk result (out.new.items ≡ out.old.items ++ time_text ms) }
{
    push_number(out, ms / HOUR)?;
    out.extend_from_slice(b" h ")?;
    push_number(out, ms / MINUTE % 60)?;
    out.extend_from_slice(b" min.")?;
    Ok(())
}
