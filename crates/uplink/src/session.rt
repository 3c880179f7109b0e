use irc_line::Name;

/// The state of the session with the upstream server.
#[derive(Drop)]
pub enum Session {
    /// The server has not welcomed the client yet; this nick was last asked for.
    Registering(Name),
    Open,
}
