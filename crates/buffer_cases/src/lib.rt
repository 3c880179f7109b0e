//! Worked cases of lines, sessions, buffers, the tower over them, folds and configurations, whose expected values
//! come from outside.
//! No crate stands on it. It has tests alone and promises nothing; they show that each case comes out as it is written.
#![tactic(auto)]

#[cfg(test)]
mod buffer;
#[cfg(test)]
mod config;
#[cfg(test)]
mod fold;
#[cfg(test)]
mod line;
#[cfg(test)]
mod made;
#[cfg(test)]
mod tower;
