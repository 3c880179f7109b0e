//! The result of a turn that asks for a mark.
use crate::record::TurnOutput;
use wire_bytes::Wire;

/// The result of a turn that asks for a mark.
#[derive(Drop)]
pub struct MarkTurn<B: Wire, E> {
    /// The mark's number.
    pub number: u64,
    pub output: TurnOutput<B, E>,
}
