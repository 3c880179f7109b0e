//! The setup of a bouncer, as bytes. Used by records, world_app and bouncer_run, among others.
//! Promises that a setup has one spelling, which is read back whatever follows it.
#![tactic(auto)]

mod channels;
mod fields;
mod options;
mod wire_setup;

pub use fields::{LineCount, OffsetMinutes, QueryCount};
pub use wire_setup::{WireSetup, put_setup};
