//! What one node of a cluster needs to run.

/// What one node of a cluster needs to run: its store, or a `PartStore` if it may come late; where its lines go, and
/// where its effects go.
#[derive(Drop)]
pub struct Part<S, U, O> {
    pub store: S,
    pub upstream: U,
    pub outlet: O,
}
