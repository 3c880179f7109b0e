//! What people are told when there is no server.
ghost use Rattle.std.specs.Prelude.{◌≡◌, ◌++◌, IfOk, OnOk, decimal, option_map};
ghost use Rattle.driver.specs.Missing.{missing, missing_text, seconds_of, try_in, try_text};

use crate::link::silence::TIME_TO_CLOSE;
use crate::link::{Link, Stage};
use crate::news::Ending;
use crate::order::Now;
use itoa::Buffer;
use std::alloc::{AllocError, Global};

impl Link {
    /// What people are told when there is no session: why, and when the server is tried again.
    pub fn missing(&self, now: &Now) -> Result<Option<Vec<u8>>, AllocError>
        ensures { IfOk result (λ text. option_map (λ text. text.items) text
            ≡ missing self.now.stage self.now.ended now.now.ms) }
    {
        if let Stage::Open(session) = &self.stage
            && session.is_opened
        {
            return Ok(None);
        }
        let text = missing_text(self.alloc, self.ended, self.try_in(now))?;
        Ok(Some(text))
    }

    /// How many milliseconds are left until the server may be tried again. None if it is being tried now.
    fn try_in(&self, now: &Now) -> Option<u64>
        ensures { result ≡ try_in self.now.stage now.now.ms }
    {
        match &self.stage {
            Stage::Idle(since, wait) => {
                let passed = now.ms.saturating_sub(since.since);
                Some((*wait as u64).saturating_sub(passed))
            }
            Stage::Closing(since, wait) => {
                let passed = now.ms.saturating_sub(since.since);
                Some(*wait as u64 + TIME_TO_CLOSE.saturating_sub(passed))
            }
            Stage::Connecting(_) | Stage::Open(_) => None,
        }
    }
}

/// What people are told when there is no server: why the last session ended, if there was one, and when the next try
/// is.
fn missing_text(
    alloc: Global,
    ended: Option<Ending>,
    try_in: Option<u64>,
) -> Result<Vec<u8>, AllocError>
    ensures { IfOk result (λ text. text.items ≡ missing_text ended try_in) }
{
    let mut text = Vec::from_slice(alloc, b"There is no server")?;
    if let Some(why) = ended {
        text.extend_from_slice(b": ")?;
        text.extend_from_slice(why.words().as_bytes())?;
    }
    text.extend_from_slice(b"; ")?;
    push_try(&mut text, try_in)?;
    Ok(text)
}

/// Appends when the server is tried again.
fn push_try(out: &mut Vec<u8>, try_in: Option<u64>) -> Result<(), AllocError>
    ensures { OnOk result (out.new.items ≡ out.old.items ++ try_text try_in) }
{
    match try_in {
        None => out.extend_from_slice(b"it is tried now."),
        Some(0) => out.extend_from_slice(b"it is tried as soon as a node leads."),
        Some(ms) => {
            out.extend_from_slice(b"next try in ")?;
            push_number(out, seconds_of(ms))?;
            out.extend_from_slice(b" s.")
        }
    }
}

/// Milliseconds as seconds, rounded up.
fn seconds_of(ms: u64) -> u64
    ensures { result ≡ seconds_of ms }
{
    let seconds = ms / 1000;
    if ms % 1000 == 0 { seconds } else { seconds + 1 }
}

/// Appends a number in decimal digits.
pub fn push_number(out: &mut Vec<u8>, number: u64) -> Result<(), AllocError>
    ensures { OnOk result (out.new.items ≡ out.old.items ++ decimal number) }
{
    let mut buffer = Buffer::new();
    out.extend_from_slice(buffer.format(number).as_bytes())
}
