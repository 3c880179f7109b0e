//! Worked cases of logs, nodes, their stores, what they agree on over lists of events, and how records are spelled,
//! whose expected values come from outside.
//! No crate stands on it. It has tests alone and promises nothing; they show that each case comes out as it is written.
#![tactic(auto)]

#[cfg(test)]
mod file;
#[cfg(test)]
mod journal;
#[cfg(test)]
mod raft;
#[cfg(test)]
mod spelling;
#[cfg(test)]
mod store;
#[cfg(test)]
mod world;
