use irc_line::Line;

/// What the session with the upstream server gives to the node.
#[derive(Drop)]
pub enum UplinkInput {
    /// The server has welcomed the client, by its first 001.
    Opened,
    /// A line of the open session; the 001 that opened it is the first.
    Heard(Line),
    /// The connection is gone.
    Closed,
}
