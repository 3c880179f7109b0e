ghost use Rattle.std.specs.Prelude.{◌≡◌, ◌≢◌, [], ◌∷◌, drop, ◌<◌, ◌≤◌, ◌+◌, length, take, is_ok, if◌then◌else◌, IfOk, IfErr, IsTrue, OnErr, Ok, Err, vec_capacity, vec_len};
ghost use Rattle.std.specs.Int.{w16, w32, w64};
ghost use Rattle.wire_bytes.specs.Fields.{appended, byte_within, number_to, behind};
ghost use Rattle.wire_bytes.specs.Contents.{sized, sized_bytes};
ghost use Rattle.irc_line.specs.Lines.{LacksRoom};
ghost use Rattle.wire_bytes.specs.Reads.{Reads, Refuses, WantsWhere};

use crate::wire::Wire;
use crate::wire_fault::WireFault;
use std::alloc::{AllocError, Global};

/// One byte between these limits. Short if there is none, Bad if it is outside.
pub fn take_byte(input: &[u8], least: u8, most: u8) -> Result<(u8, usize), WireFault>
    ensures value { result ≡ byte_within least most input.now }
    ensures no_memory { IfErr result (λ e. e ≢ WireFault.Memory) }
    ensures limits { IfOk result (λ r. (least ≤ r.0) × (r.0 ≤ most)) }
{
    match input {
        [] => Err(WireFault::Short),
        [b, ..] => {
            if least <= *b && *b <= most {
                Ok((*b, 1))
            } else {
                Err(WireFault::Bad(0))
            }
        }
    }
}

/// A number in two bytes, the highest first. Short if they are not there, Bad if it is past the limit.
#[tactic(auto, unfolding(crate::specs::Fields::number_to))]
pub fn take_u16(input: &[u8], most: u16) -> Result<(u16, usize), WireFault>
    ensures value { result ≡ number_to w16 most input.now }
    ensures no_memory { IfErr result (λ e. e ≢ WireFault.Memory) }
    ensures limit { IfOk result (λ r. r.0 ≤ most) }
{
    if input.len() < 2 {
        return Err(WireFault::Short);
    }
    let (front, _) = input.split_at(2);
    let number = u16::from_be_bytes([front[0], front[1]]);
    if number <= most {
        Ok((number, 2))
    } else {
        Err(WireFault::Bad(0))
    }
}

/// A number in four bytes, the highest first. Short if they are not there, Bad if it is past the limit.
#[tactic(auto, unfolding(crate::specs::Fields::number_to))]
pub fn take_u32(input: &[u8], most: u32) -> Result<(u32, usize), WireFault>
    ensures value { result ≡ number_to w32 most input.now }
    ensures no_memory { IfErr result (λ e. e ≢ WireFault.Memory) }
    ensures limit { IfOk result (λ r. r.0 ≤ most) }
{
    if input.len() < 4 {
        return Err(WireFault::Short);
    }
    let (front, _) = input.split_at(4);
    let number = u32::from_be_bytes([front[0], front[1], front[2], front[3]]);
    if number <= most {
        Ok((number, 4))
    } else {
        Err(WireFault::Bad(0))
    }
}

/// A number in eight bytes, the highest first. Short if they are not there, Bad if it is past the limit.
#[tactic(auto, unfolding(crate::specs::Fields::number_to))]
pub fn take_u64(input: &[u8], most: u64) -> Result<(u64, usize), WireFault>
    ensures value { result ≡ number_to w64 most input.now }
    ensures no_memory { IfErr result (λ e. e ≢ WireFault.Memory) }
    ensures limit { IfOk result (λ r. r.0 ≤ most) }
{
    if input.len() < 8 {
        return Err(WireFault::Short);
    }
    let (front, _) = input.split_at(8);
    let number = u64::from_be_bytes([
        front[0], front[1], front[2], front[3], front[4], front[5], front[6], front[7],
    ]);
    if number <= most {
        Ok((number, 8))
    } else {
        Err(WireFault::Bad(0))
    }
}

/// The bytes that a length in two bytes announces. Short if they are not all there.
#[tactic(auto, unfolding(crate::specs::Contents::sized_bytes))]
pub fn take_sized(input: &[u8]) -> Result<&[u8], WireFault>
    ensures ok { IfOk result (λ bytes. sized_bytes input.now ≡ Ok bytes.now) }
    ensures err { IfErr result (λ e. sized_bytes input.now ≡ Err e) }
    ensures short { IfErr result (λ e. e ≡ WireFault.Short) }
    ensures within { IfOk result (λ bytes. 2 + length bytes.now ≤ length input.now) }
{
    if input.len() < 2 {
        return Err(WireFault::Short);
    }
    let (front, rest) = input.split_at(2);
    let size = usize::from(u16::from_be_bytes([front[0], front[1]]));
    if rest.len() < size {
        return Err(WireFault::Short);
    }
    let (bytes, _) = rest.split_at(size);
    Ok(bytes)
}

/// Returns the given result; if it is an error, all that was appended after the first `len` bytes is removed.
pub fn undo(
    out: &mut Vec<u8>,
    len: usize,
    outcome: Result<(), AllocError>,
) -> Result<(), AllocError>
    ensures outcome { result ≡ outcome }
    ensures items { out.new.items
        ≡ (if is_ok outcome then out.old.items else take len out.old.items) }
    ensures capacity { vec_capacity out.new ≡ vec_capacity out.old }
{
    if outcome.is_err() {
        out.truncate(len);
    }
    outcome
}

/// Appends a length in two bytes and the bytes, or leaves the items as they were.
#[tactic(auto, unfolding(crate::specs::Contents::sized))]
pub fn put_sized(out: &mut Vec<u8>, bytes: &[u8]) -> Result<(), AllocError>
    requires { length bytes.now < 65536 }
    ensures items { out.new.items ≡ appended result out.old.items (sized bytes.now) }
    ensures full { OnErr result (LacksRoom out.old (length (sized bytes.now))) }
    ensures capacity { vec_capacity out.old ≤ vec_capacity out.new }
{
    let len = out.len();
    out.extend_from_slice(&(bytes.len() as u16).to_be_bytes())?;
    let outcome = out.extend_from_slice(bytes);
    undo(out, len, outcome)
}

/// Reads a value from this place of the input on, which is at most its length. Places and the end are counted from the
/// input's front.
pub fn take_behind<W: Wire>(
    alloc: Global,
    input: &[u8],
    place: usize,
) -> Result<(W, usize), WireFault>
    requires { place ≤ length input.now }
    ensures ok { Reads result (behind place W.taken) input.now }
    ensures err { Refuses result (behind place W.taken) input.now }
    ensures memory { WantsWhere result (W.wants (drop place input.now)) }
    ensures within { IfOk result (λ r. (place ≤ r.1) × (r.1 ≤ length input.now)) }
{
    let (_, rest) = input.split_at(place);
    match W::take(alloc, rest) {
        Ok((value, len)) => Ok((value, place + len)),
        Err(WireFault::Short) => Err(WireFault::Short),
        Err(WireFault::Bad(within)) => Err(WireFault::Bad(place + within)),
        Err(WireFault::Memory) => Err(WireFault::Memory),
    }
}
