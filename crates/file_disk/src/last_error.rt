//! The last error of a file's calls.
ghost use Rattle.std.specs.Prelude.{◌≡◌, ◌≢◌};

use std::alloc::{AllocError, Global};
use std::io;
use std::sync::Arc;
use std::sync::atomic::{AtomicU32, Ordering};

/// In place of a code: a call failed, and the system gave no code.
const UNTOLD: u32 = u32::MAX;

/// The last error of a file's calls, for reports to an operator. Another thread may change it at any time, so that no
/// clause says what it is.
#[derive(Drop)]
pub struct LastError {
    /// The code of the system's error, or `UNTOLD`; 0 if no call has failed.
    code: Arc<AtomicU32, Global>,
}

impl LastError {
    /// No call has failed.
    pub fn none(alloc: Global) -> Result<LastError, AllocError> {
        Ok(LastError {
            code: Arc::new(alloc, AtomicU32::new(0))?,
        })
    }

    /// The same one, for another thread.
    pub fn share(&self) -> Result<LastError, AllocError> {
        Ok(LastError {
            code: Arc::clone(&self.code)?,
        })
    }

    /// The last error, if a call failed with one of the system's.
    pub fn get(&self) -> Option<io::Error> {
        match i32::try_from(self.code.load(Ordering::SeqCst)) {
            Ok(0) | Err(_) => None,
            Ok(code) => Some(io::Error::from_raw_os_error(code)),
        }
    }

    /// Whether a call failed, also one for which the system gave no error.
    pub fn is_met(&self) -> bool {
        self.code.load(Ordering::SeqCst) != 0
    }

    /// Notes the result of a call, and returns it.
    pub(crate) fn note<T>(&self, answer: io::Result<T>) -> io::Result<T>
        ensures { result ≡ answer }
    {
        if let Err(error) = &answer {
            self.note_error(error);
        }
        answer
    }

    /// Notes that a call failed with this error.
    pub fn note_error(&self, error: &io::Error) {
        self.code.store(code_of(error), Ordering::SeqCst);
    }
}

/// The code with which an error is noted, which is not 0.
fn code_of(error: &io::Error) -> u32
    ensures { result ≢ 0 }
{
    match u32::try_from(error.raw_os_error().unwrap_or(0)) {
        Ok(0) | Err(_) => UNTOLD,
        Ok(code) => code,
    }
}
