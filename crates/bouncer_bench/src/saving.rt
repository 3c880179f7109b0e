//! Saves in a journal, and the opening of one.
ghost use Rattle.std.specs.Prelude.{◌≤◌, ◌<◌};
ghost use Rattle.wire_bytes.specs.Limits.{number_limit};

use file_disk::{FileJournal, OpenFault, open_journal};
use raft_log::{Entry, Log, LoggedBody};
use stable_store::{Change, Stable, StoreFault};
use std::alloc::{AllocError, Global};
use wire_bytes::Number;

/// One entry after this many.
fn change(alloc: Global, place: u64) -> Result<Change<u8>, AllocError>
    requires { place < number_limit }
{
    let term = Number::new(1);
    let body = LoggedBody::new(alloc, 7)?;
    let entries = vec![in alloc; Entry { term, body }]?;
    Ok(Change::new(term, term, None, Number::new(place), entries))
}

/// Opens the journal of a path and saves this many entries, one at a time. Returns how many it then
/// has.
pub fn save(rt: &HostRuntime, path: &str, count: u32) -> Result<u64, OpenFault> {
    let alloc = rt.alloc();
    let mut store: FileJournal<u8> = open_journal(rt, alloc, path, &Log::new(alloc))?;
    let stands = store.read()?.log.len().value();
    for done in 0..count {
        let change = change(alloc, stands + u64::from(done)).map_err(StoreFault::from)?;
        store.save(&change)?;
    }
    Ok(stands + u64::from(count))
}
