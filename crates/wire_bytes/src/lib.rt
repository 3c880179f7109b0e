//! Values as bytes: each value has one spelling, and small types that keep their limits. Used by nearly all other
//! crates, buffer_commands, raft_log and recorder among them. Promises that a value within its limits has one spelling,
//! read back whatever follows it; none begins another.
//!
//! A value of several fields is read as `both`, `through`, `only` and `choice` of `specs/Fields` say, and has the laws
//! of [`Wire`] by the lemmas of `specs/Codecs`. Its `take` calls [`take_behind`] for what follows its kind byte, where
//! a pair of values is one after the other; with the rules `composed` of `proofs/Steps` the search proves it. Its `put`
//! appends one field after the other and passes the outcome to [`undo`].
#![tactic(auto)]

mod bytes;
mod contents;
mod copied;
mod fields;
mod laws;
mod limits;
mod mark;
mod moment;
mod number;
mod origin;
mod pair;
mod session_id;
mod wire;
mod wire_fault;

pub use copied::{Copied, copied_all};
pub use fields::{
    put_sized, take_behind, take_byte, take_sized, take_u16, take_u32, take_u64, undo,
};
pub use laws::{none_begins_another, the_front_is_read};
pub use limits::{BODY_LIMIT, LAST_NUMBER, LAST_SECOND, MOST_NODES, limits_of_values};
pub use mark::Mark;
pub use moment::Moment;
pub use number::Number;
pub use origin::Origin;
pub use session_id::SessionId;
pub use wire::Wire;
pub use wire_fault::WireFault;
