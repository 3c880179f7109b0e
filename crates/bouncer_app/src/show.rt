//! What `bouncer show` does: the chat of a journal, as text.
use chat_log::{Extent, chat_log};
use irc_line::Name;
use stable_store::StoreFault;
use std::io::{ErrorKind, Write};
use std::rt::Runtime;
use std::{fs, io};
use thiserror::Error;

/// Why a journal is not shown.
#[derive(Clone, Copy, Debug, Drop, PartialEq, Eq, Error)]
pub enum ShowFault {
    /// The file could not be read.
    #[error("Read")]
    Read,
    #[error("NotAStore")]
    NotAStore,
    #[error("Version")]
    Version,
    /// The record at this place, from 0, is damaged.
    #[error("Damaged {0}")]
    Damaged(u64),
    #[error("Write")]
    Write,
    #[error("Memory")]
    Memory,
}

impl From<StoreFault> for ShowFault {
    fn from(fault: StoreFault) -> Self {
        match fault {
            StoreFault::NotAStore => ShowFault::NotAStore,
            StoreFault::Version => ShowFault::Version,
            StoreFault::Damaged(place) => ShowFault::Damaged(place),
            StoreFault::Device => ShowFault::Read,
            StoreFault::Memory => ShowFault::Memory,
        }
    }
}

/// Prints the chat of the journal in a file: of an extent all, or what concerns a target. The file is read once and not
/// changed. If it is at fault, a line is written to standard error that names it and says why.
pub fn show(
    rt: &(impl Runtime + AllocGlobal),
    path: &str,
    extent: Extent,
    target: Option<&Name>,
) -> Result<(), ShowFault> {
    let journal = read_journal(rt, path)?;
    let text = match chat_log(rt.alloc(), journal, extent, target) {
        Ok(text) => text,
        Err(fault) => {
            tell(rt, path, fault);
            return Err(ShowFault::from(fault));
        }
    };
    let mut output = io::writer(rt);
    if output.write_all(&text).is_err() || output.flush().is_err() {
        return Err(ShowFault::Write);
    }
    Ok(())
}

/// The bytes of a journal's file. If it can't be read, a line is written to standard error that names it and says why.
fn read_journal(rt: &(impl Runtime + AllocGlobal), path: &str) -> Result<Vec<u8>, ShowFault> {
    match fs::read(rt, path) {
        Ok(journal) => Ok(journal),
        Err(error) if error.kind() == ErrorKind::OutOfMemory => Err(ShowFault::Memory),
        Err(error) => {
            let _ = eprintln!(rt; "{path}: {error}");
            Err(ShowFault::Read)
        }
    }
}

/// Says on standard error what is wrong with a file, unless memory ran out.
fn tell(rt: &impl Runtime, path: &str, fault: StoreFault) {
    let _ = match fault {
        StoreFault::NotAStore => eprintln!(rt; "{path}: is no journal"),
        StoreFault::Version => eprintln!(rt; "{path}: is of another version"),
        StoreFault::Damaged(place) => eprintln!(rt; "{path}: is damaged at byte {place}"),
        StoreFault::Device => eprintln!(rt; "{path}: can't be read"),
        StoreFault::Memory => Ok(()),
    };
}
