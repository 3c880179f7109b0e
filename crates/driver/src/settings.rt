//! The settings of a driver.
use crate::channel_key::ChannelKey;
use irc_line::{Line, Name, Text};
use raft_log::GroupSize;

/// The settings of a driver.
#[derive(Drop)]
pub struct Settings {
    /// How many nodes there are.
    pub size: GroupSize,
    /// The nick that is asked for.
    pub nick: Name,
    /// What clients send in PASS.
    pub password: Vec<u8>,
    /// What the server is sent in PASS, if anything.
    pub upstream_password: Option<Text>,
    /// What each session sends before anything else, in this order.
    pub on_connect: Vec<Line>,
    /// The keys by which channels are joined again.
    pub channel_keys: Vec<ChannelKey>,
    /// How often a leader is heard, in milliseconds.
    pub beat_ms: u16,
    /// After how long without a leader an election begins, in milliseconds.
    pub timeout_ms: u16,
    /// How many lines may go to the server in a burst.
    pub flood_burst: u16,
    /// How long each further line waits, in milliseconds.
    pub flood_ms: u16,
}
