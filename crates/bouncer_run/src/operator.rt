//! Who learns what happens.
use crate::edge_news::EdgeNews;
use driver::{News, Now};
use std::alloc::AllocError;

/// Who learns what happens.
pub trait Operator {
    /// How many entries the leader's log has. It is sent before what the driver reports at that
    /// moment.
    fn hear_length(&mut self, now: &Now, entries: u64) -> Result<(), AllocError>;

    /// What the driver reports.
    fn hear(&mut self, now: &Now, news: News);

    /// What happened at the edge.
    fn hear_edge(&mut self, now: &Now, news: EdgeNews);
}
