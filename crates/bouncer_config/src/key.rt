ghost use Rattle.std.specs.Prelude.{◌≡◌};
ghost use Rattle.bouncer_config.specs.KeyTexts.{key_text, kind_of, limits_of};
ghost use Rattle.bouncer_config.specs.Wrong.{is_needed};

use buffer_commands::{MOST_LINES, MOST_QUERIES};
use raft_log::ENTRY_LIMIT;

/// A key of the configuration.
#[derive(Clone, Copy, Debug, PartialEq, Eq)]
pub enum Key {
    Nick,
    Password,
    Upstream,
    UpstreamPassword,
    Listen,
    Store,
    Record,
    Channels,
    ChanBufferSize,
    QueryBufferSize,
    MaxQueryBuffers,
    OffsetMinutes,
    AutoClearChanBuffer,
    AutoClearQueryBuffer,
    MultiClients,
    BeatMs,
    TimeoutMs,
    FloodBurst,
    FloodMs,
    Log,
    Input,
    RenewAt,
    ChannelKeys,
    OnConnect,
}

/// The kind of a key's value.
#[derive(Clone, Copy, Debug, PartialEq, Eq)]
pub enum Kind {
    Text,
    Texts,
    /// A path, or a list of them.
    Paths,
    /// A table of texts.
    Pairs,
    Number,
    Truth,
}

/// The least and the greatest value of a number, and its default.
#[derive(Clone, Copy, Debug, PartialEq, Eq)]
pub struct Limits {
    pub least: u32,
    pub most: u32,
    pub usual: u32,
}

impl Limits {
    fn new(least: u32, most: u32, usual: u32) -> Limits
        ensures { result ≡ record { least = least; most = most; usual = usual } }
    {
        Limits { least, most, usual }
    }
}

impl Key {
    /// The word of the key in the text.
    pub fn text(self) -> &'static str
        ensures { result.now ≡ key_text self }
    {
        match self {
            Key::Nick => "nick",
            Key::Password => "password",
            Key::Upstream => "upstream",
            Key::UpstreamPassword => "upstream_password",
            Key::Listen => "listen",
            Key::Store => "store",
            Key::Record => "record",
            Key::Channels => "channels",
            Key::ChanBufferSize => "chan_buffer_size",
            Key::QueryBufferSize => "query_buffer_size",
            Key::MaxQueryBuffers => "max_query_buffers",
            Key::OffsetMinutes => "offset_minutes",
            Key::AutoClearChanBuffer => "auto_clear_chan_buffer",
            Key::AutoClearQueryBuffer => "auto_clear_query_buffer",
            Key::MultiClients => "multi_clients",
            Key::BeatMs => "beat_ms",
            Key::TimeoutMs => "timeout_ms",
            Key::FloodBurst => "flood_burst",
            Key::FloodMs => "flood_ms",
            Key::Log => "log",
            Key::Input => "input",
            Key::RenewAt => "renew_at",
            Key::ChannelKeys => "channel_keys",
            Key::OnConnect => "on_connect",
        }
    }

    /// The kind of the key's value.
    pub fn kind(self) -> Kind
        ensures { result ≡ kind_of self }
    {
        match self {
            Key::Nick | Key::Password | Key::Upstream | Key::UpstreamPassword => Kind::Text,
            Key::Record | Key::Log | Key::Input => Kind::Text,
            Key::Listen | Key::Channels | Key::OnConnect => Kind::Texts,
            Key::Store => Kind::Paths,
            Key::ChannelKeys => Kind::Pairs,
            Key::AutoClearChanBuffer | Key::AutoClearQueryBuffer => Kind::Truth,
            Key::MultiClients => Kind::Truth,
            _ => Kind::Number,
        }
    }

    /// Whether every configuration needs the key.
    pub(crate) fn is_needed(self) -> bool
        ensures { result ≡ is_needed self }
    {
        matches!(
            self,
            Key::Nick | Key::Password | Key::Upstream | Key::Listen | Key::Store
        )
    }

    /// The limits of a key whose value is a natural number; 0 throughout for any other key.
    pub fn limits(self) -> Limits
        ensures { result ≡ limits_of self }
    {
        match self {
            // what is kept is in the memory of each node, and is played back whole
            Key::ChanBufferSize | Key::QueryBufferSize => Limits::new(0, MOST_LINES as u32, 50),
            Key::MaxQueryBuffers => Limits::new(1, MOST_QUERIES as u32, 50),
            // without a leader nothing is agreed, and nobody should wait more than a minute
            Key::BeatMs => Limits::new(10, 10_000, 100),
            Key::TimeoutMs => Limits::new(50, 60_000, 1_000),
            // as most servers allow: a few lines at once, then one in two seconds
            Key::FloodBurst => Limits::new(1, 100, 5),
            Key::FloodMs => Limits::new(0, 60_000, 2_000),
            // no log has more entries
            Key::RenewAt => Limits::new(0, ENTRY_LIMIT as u32, 0),
            _ => Limits::new(0, 0, 0),
        }
    }
}
