//! Inputs that are read whole, or piece by piece within the same limits. records, bouncer_run and fold_app use it. The
//! bytes of an input that is read are all its bytes, at most 67,108,864; an input is reported as too long only if it
//! is.
#![tactic(auto)]

mod input;
pub mod limits;
mod read_fault;

pub use input::{
    MOST_BYTES, MOST_READS, PIECE_LENGTH, count_within, read_piece, read_whole, room_for_a_piece,
};
pub use read_fault::ReadFault;
