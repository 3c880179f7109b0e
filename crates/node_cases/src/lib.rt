//! Worked cases of nodes that run: their ether, their cells, what drives them, and their threads, whose expected values
//! come from outside.
//! No crate stands on it. It has tests alone and promises nothing; they show that each case comes out as it is written.
#![tactic(auto)]

#[cfg(test)]
mod cell;
#[cfg(test)]
mod drive;
#[cfg(test)]
mod marked;
#[cfg(test)]
mod opening;
#[cfg(test)]
mod running;
#[cfg(test)]
mod stories;
#[cfg(test)]
mod tickets;
#[cfg(test)]
mod walks;
