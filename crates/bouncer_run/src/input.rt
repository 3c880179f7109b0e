//! The input whose end ends a bouncer, as it is at the start.
ghost use Rattle.std.specs.Prelude.{◌≡◌, IfErr, IfOk, is_some};
ghost use Rattle.bouncer_run.specs.Faults.{IsOrMemory};
ghost use Rattle.bouncer_run.specs.Inputs.{is_read};

use crate::ending::{InputState, look_at};
use crate::run_fault::RunFault;
use crate::system::System;
use bouncer_config::InputEnd;
use std::io::Read;
use std::os::fd::AsRawFd;

/// The input, if its end is to stop the bouncer. If it is at its end already, a line was written to
/// standard error that names the configuration and says what to do.
pub fn open_input<R: System, I: Read + AsRawFd + Drop>(
    rt: &R,
    path: &str,
    input_end: InputEnd,
    input: I,
) -> Result<Option<I>, RunFault>
    ensures read { IfOk result (λ input. is_some input ≡ is_read input_end) }
    ensures fault { IfErr result (IsOrMemory RunFault.Read) }
{
    if input_end == InputEnd::Ignored {
        return Ok(None);
    }
    let mut input = input;
    let why = match look_at(rt, rt.alloc(), &mut input) {
        Ok(InputState::Open) => return Ok(Some(input)),
        Ok(InputState::Ended) => "is at its end",
        Ok(InputState::Unreadable) => "can't be read",
        Err(error) => {
            let _ = eprintln!(rt; "standard input: {error}");
            return Err(RunFault::of_error(&error, RunFault::Read));
        }
    };
    let _ = eprintln!(rt;
        "standard input {why}: hold it open, or set input = \"ignore\" in {path}"
    );
    Err(RunFault::Read)
}
