use crate::password::Password;
use irc_line::Name;
use wire_bytes::Origin;

/// The settings of a gate.
#[derive(Drop)]
pub struct Settings {
    pub origin: Origin,
    /// What the client must send in PASS.
    pub password: Password,
    /// The name by which the client is addressed.
    pub nick: Name,
}
