//! The state of a disk after a record of calls.
ghost use Rattle.std.specs.Prelude.{◌≡◌, ◌+◌, ◌∷◌, length, if◌then◌else◌, IfOk, IfErr};
ghost use Rattle.journal_store.specs.Disks.{not_covered, settled_at, synced, writing, written_over};
ghost use Rattle.fault_disks.specs.Calls.{dropped, replayed, state_after, written};

use crate::call::{Call, Called};
use crate::span::{Span, not_covered, with_first};
use journal_store::DiskFault;
use std::alloc::{AllocError, Global};
use std::marker::Model;

/// What a read of a disk gives, and what is not synced.
#[derive(Drop)]
pub struct State {
    pub bytes: Vec<u8>,
    /// The spans written since the last call of sync, the newest first.
    pub written: Vec<Span>,
    /// The spans that a failed sync dropped, and that no write has covered since.
    pub left: Vec<Span>,
    /// Where the file's end was when all was last synced.
    pub settled: usize,
    /// The least length since then.
    pub least: usize,
    /// The greatest length since then.
    pub most: usize,
}

impl Model for State {
    ghost use Rattle.journal_store.specs.Disks.{DiskState};

    ghost Value = { DiskState };

    ghost view = { λ s. record {
      bytes = s.bytes.items;
      written = s.written.items;
      left = s.left.items;
      settled = s.settled;
      least = s.least;
      most = s.most;
    } };
}

impl State {
    /// These bytes, all synced.
    pub fn settled(alloc: Global, bytes: Vec<u8>) -> Self
        ensures { result ≡ settled_at bytes.items }
    {
        let len = bytes.len();
        State {
            bytes,
            written: Vec::new(alloc),
            left: Vec::new(alloc),
            settled: len,
            least: len,
            most: len,
        }
    }
}

/// The state after these calls, the first one first.
pub fn replayed(alloc: Global, state: State, calls: &[Called]) -> Result<State, DiskFault>
    ensures ok { IfOk result (λ s. s ≡ replayed state calls.now) }
    ensures memory { IfErr result (λ e. e ≡ DiskFault.Memory) }
{
    match calls {
        [] => Ok(state),
        [first, rest @ ..] => replayed(alloc, after(alloc, state, first)?, rest),
    }
}

/// The state after a call.
fn after(alloc: Global, state: State, called: &Called) -> Result<State, DiskFault>
    ensures ok { IfOk result (λ s. s ≡ state_after called.now.call called.now.passed state) }
    ensures memory { IfErr result (λ e. e ≡ DiskFault.Memory) }
{
    match &called.call {
        Call::Len => Ok(state),
        Call::Read(_, _) => Ok(state),
        Call::Write(place, bytes) => write(alloc, state, *place, bytes, called.passed),
        Call::Sync => {
            if called.passed {
                Ok(sync(alloc, state))
            } else {
                Ok(drop_written(alloc, state)?)
            }
        }
    }
}

/// Syncs all that was written, but nothing that was dropped.
fn sync(alloc: Global, state: State) -> State
    ensures { result ≡ synced state }
{
    if state.left.is_empty() {
        return State::settled(alloc, state.bytes);
    }
    let mut state = state;
    state.written = Vec::new(alloc);
    state
}

/// Drops what was written: a sync failed.
fn drop_written(alloc: Global, state: State) -> Result<State, AllocError>
    ensures { IfOk result (λ s. s ≡ dropped state) }
{
    let mut state = state;
    let mut left = state.written;
    left.extend_from_slice(&state.left)?;
    state.left = left;
    state.written = Vec::new(alloc);
    Ok(state)
}

/// Writes bytes, or fails to.
fn write(
    alloc: Global,
    state: State,
    place: usize,
    bytes: &[u8],
    passed: bool,
) -> Result<State, DiskFault>
    ensures ok { IfOk result (λ s. s ≡ (if passed then written place bytes.now state
        else writing place (length bytes.now) state)) }
    ensures memory { IfErr result (λ e. e ≡ DiskFault.Memory) }
{
    let State {
        bytes: old,
        written,
        left,
        settled,
        least,
        most,
    } = state;
    let Some(end) = place.checked_add(bytes.len()) else {
        return Err(DiskFault::Memory);
    };
    let span = Span {
        place,
        size: bytes.len(),
    };
    let written = with_first(written, span)?;
    let (bytes, left) = if passed {
        let now = over(alloc, &old, place, end, bytes)?;
        let left = not_covered(alloc, span, now.len(), &left)?;
        (now, left)
    } else {
        (old, left)
    };
    Ok(State {
        bytes,
        written,
        left,
        settled,
        least,
        most: most.max(end),
    })
}

/// The bytes with others written over them from a place on, up to an end.
fn over(
    alloc: Global,
    old: &[u8],
    place: usize,
    end: usize,
    bytes: &[u8],
) -> Result<Vec<u8>, AllocError>
    requires { end ≡ place + length bytes.now }
    ensures { IfOk result (λ v. v.items ≡ written_over old.now place bytes.now) }
{
    let mut next = old[..place.min(old.len())].to_vec(alloc)?;
    next.extend_from_slice(bytes)?;
    if end < old.len() {
        next.extend_from_slice(&old[end..])?;
    }
    Ok(next)
}
