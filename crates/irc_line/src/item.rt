use crate::{Line, LineFault};

/// What a content that was fed gives.
#[derive(Drop)]
pub enum Item {
    /// A line.
    Got(Line),
    /// A content that is no line, and its first fault, which is never `Memory`.
    Refused(LineFault),
}
