//! Marks between which allocations are counted and refused.
use std::alloc::Global;

/// Nothing else asks for so many bytes at once: tests/refuse_allocation.c counts what is asked for
/// between one allocation of this size and the next.
const MARK: usize = 1_000_003;

/// Marks where the calls that are tried begin, and where they end.
pub fn mark(alloc: Global) {
    if let Ok(bytes) = Vec::<u8>::with_capacity(alloc, MARK) {
        drop(bytes);
    }
}
