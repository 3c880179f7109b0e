use crate::session::Session;

/// Whether there still is a session.
#[derive(Drop)]
pub enum Standing {
    Live(Session),
    /// Memory ran out, so lines may be lost; the end was not reported yet.
    Lost,
    /// The end was reported.
    Over,
}
