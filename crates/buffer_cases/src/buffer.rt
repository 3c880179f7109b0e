//! Buffers, their commands and the gate of a client.
mod actions;
mod buffers;
mod channels;
mod commands;
mod gate_told;
mod gates;
mod heard;
mod passes;
mod queries;
mod rings;
pub mod setups;
mod targets;
