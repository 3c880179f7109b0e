//! An input, read whole, or piece by piece.
ghost use Rattle.whole_input.specs.Reads.{IsReadJudged, IsTooLong, ReadGives, most_bytes, piece_length};
ghost use Rattle.std.specs.Prelude.{◌≡◌, ℕ, OnOk, ◌+◌, ◌<◌, ◌≤◌, List, [], ◌∷◌, ◌++◌, length, Some, IfOk, IfErr, IfSome};

use crate::read_fault::ReadFault;
use std::alloc::Global;
use std::io;
use std::io::{ErrorKind, Read};

/// The most bytes that an input may have.
// An input may be held in memory whole, and a file that is longer is a wrong one.
pub const MOST_BYTES: usize = 67_108_864;

/// The most reads that are tried, interrupted ones included.
pub const MOST_READS: u64 = 100_000_000;

/// How many bytes are read at once.
// A pipe holds as many, and larger reads are not faster.
pub const PIECE_LENGTH: usize = 65_536;

/// All bytes of a reader. An input that is too long is recognized by its first byte past the limit.
pub fn read_whole<R: Read>(alloc: Global, reader: &mut R) -> Result<Vec<u8>, ReadFault>
    ensures whole { IfOk result (λ v. IfSome (R.remaining reader.old) (λ bytes. v.items ≡ bytes)) }
    ensures bounded { IfOk result (λ v. length v.items ≤ most_bytes) }
    ensures too_long { IfErr result (λ e. e ≡ ReadFault.InputTooLong →
        IsTooLong (R.remaining reader.old)) }
{
    let mut room = room_for_a_piece(alloc)?;
    let mut input = Vec::new(alloc);
    for _ in 0..MOST_READS {
        match read_piece(reader, room.as_mut_slice())? {
            None => {}
            Some(0) => return Ok(input),
            Some(count) => push_within(&mut input, &room[..count])?,
        }
    }
    Err(ReadFault::Read)
}

/// The room for the pieces of an input, one after the other.
pub fn room_for_a_piece(alloc: Global) -> Result<Vec<u8>, ReadFault>
    ensures room { IfOk result (λ v. length v.items ≡ piece_length) }
    ensures fault { IfErr result (λ e. e ≡ ReadFault.Memory) }
{
    vec![in alloc; 0; PIECE_LENGTH].map_err(|_| ReadFault::Memory)
}

/// One read: how many bytes came, or none if it was interrupted.
pub fn read_piece<R: Read>(reader: &mut R, room: &mut [u8]) -> Result<Option<usize>, ReadFault>
    ensures gives { IfOk result (λ count.
        ReadGives (R.remaining reader.old) (R.remaining reader.new) count room.new) }
    ensures fault { IfErr result (λ e. e ≡ ReadFault.Read) }
{
    judged(reader.read(room))
}

/// The result of one read: an interruption is not an error.
fn judged(outcome: io::Result<usize>) -> Result<Option<usize>, ReadFault>
    ensures { IsReadJudged outcome result }
{
    match outcome {
        Ok(count) => Ok(Some(count)),
        Err(error) => if error.kind() == ErrorKind::Interrupted {
            Ok(None)
        } else {
            Err(ReadFault::Read)
        },
    }
}

/// Appends what was read, if it fits.
fn push_within(input: &mut Vec<u8>, read: &[u8]) -> Result<(), ReadFault>
    requires { length input.old.items ≤ most_bytes }
    ensures pushed { OnOk result (input.new.items ≡ input.old.items ++ read.now) }
    ensures bounded { OnOk result (length input.new.items ≤ most_bytes) }
    ensures too_long { IfErr result (λ e. e ≡ ReadFault.InputTooLong →
        most_bytes < length input.old.items + length read.now) }
{
    count_within(input.len(), read.len())?;
    input.extend_from_slice(read).map_err(|_| ReadFault::Memory)
}

/// The length of an input after more bytes came, if it may be that long.
pub fn count_within(bytes: usize, more: usize) -> Result<usize, ReadFault>
    requires { bytes ≤ most_bytes }
    ensures sum { IfOk result (λ all. all ≡ bytes + more) }
    ensures bounded { IfOk result (λ all. all ≤ most_bytes) }
    ensures too_long { IfErr result (λ e. (e ≡ ReadFault.InputTooLong)
        × (most_bytes < bytes + more)) }
{
    if more > MOST_BYTES - bytes {
        return Err(ReadFault::InputTooLong);
    }
    Ok(bytes + more)
}
