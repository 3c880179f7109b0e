//! The tower of machines that nodes host.
mod bodies;
mod hosted;
mod layers;
mod told;
mod towers;
