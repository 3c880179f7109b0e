//! The requests that wait, in order of their numbers.
ghost use Rattle.std.specs.Prelude.{◌≡◌, ◌+◌, ◌≤◌, ◌++◌, length, IfOk};
ghost use Rattle.circular_buffer.specs.Buffer.{buffer};
ghost use Rattle.client_gate.specs.Gates.{behind_number, is_first_answered};

use crate::request::Request;
use circular_buffer::HeapCircularBuffer;
use std::alloc::{AllocError, Global};
use wire_bytes::Copied;

/// Adds requests, for which there is room, after those that wait.
pub fn push_all(waiting: &mut HeapCircularBuffer<Request>, requests: Vec<Request>)
    requires { length waiting.old.items + length requests.items ≤ waiting.old.capacity }
    ensures { waiting.new ≡ buffer (waiting.old.items ++ requests.items) waiting.old.capacity }
{
    for request in requests {
        waiting.push_back(request);
    }
}

/// Removes the requests whose number is at most this one.
pub fn drop_answered(waiting: &mut HeapCircularBuffer<Request>, number: u64)
    ensures items { waiting.new ≡ buffer (behind_number number waiting.old.items)
        waiting.old.capacity }
    ensures fewer { length waiting.new.items ≤ length waiting.old.items }
{
    while is_first_answered(waiting, number) {
        waiting.pop_front();
    }
}

/// Whether a request waits whose number is at most this one.
pub fn is_first_answered(waiting: &HeapCircularBuffer<Request>, number: u64) -> bool
    ensures { result ≡ is_first_answered number waiting.now.items }
{
    match waiting.front() {
        None => false,
        Some(request) => request.number.value() <= number,
    }
}

/// Copies of all that wait.
pub fn copies(
    alloc: Global,
    waiting: &HeapCircularBuffer<Request>,
) -> Result<Vec<Request>, AllocError>
    ensures { IfOk result (λ v. v.items ≡ waiting.now.items) }
{
    let mut all = Vec::with_capacity(alloc, waiting.len())?;
    for request in waiting.iter() {
        all.push(request.copy(alloc)?)?;
    }
    Ok(all)
}
