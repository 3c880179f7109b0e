//! The file that a crash leaves.
ghost use Rattle.std.specs.Prelude.{◌≡◌, ◌<◌, length, IfOk};
ghost use Rattle.fault_disks.specs.Images.{byte_left, bytes_left, left_by};

use crate::span::is_outside;
use crate::state::State;
use std::alloc::{AllocError, Global};

/// What a crash does to all that is not synced.
#[derive(Clone, Copy, Debug, Drop, PartialEq, Eq)]
pub enum Unsynced {
    /// It is as it is read.
    Kept,
    /// Each of its bytes is this one, and the file is as long as it may be.
    Overwritten(u8),
}

/// The file that a crash leaves.
pub fn left_by(alloc: Global, state: State, unsynced: Unsynced) -> Result<Vec<u8>, AllocError>
    ensures { IfOk result (λ v. v.items ≡ left_by unsynced state) }
{
    match unsynced {
        Unsynced::Kept => Ok(state.bytes),
        Unsynced::Overwritten(byte) => overwritten(alloc, &state, byte),
    }
}

fn overwritten(alloc: Global, state: &State, byte: u8) -> Result<Vec<u8>, AllocError>
    ensures { IfOk result (λ v. v.items ≡ bytes_left byte state.now 0 state.now.most) }
{
    let most = state.most;
    let mut file = Vec::new(alloc);
    let mut place = 0;
    while place < most {
        file.push(byte_left(state, byte, place))?;
        place += 1;
    }
    Ok(file)
}

fn byte_left(state: &State, byte: u8, place: usize) -> u8
    ensures { result ≡ byte_left byte state.now place }
{
    if place < state.settled
        && is_outside(place, &state.written)
        && is_outside(place, &state.left)
    {
        match state.bytes.get(place) {
            Some(kept) => *kept,
            None => 0,
        }
    } else {
        byte
    }
}
