ghost use Rattle.std.specs.Prelude.{◌≡◌, ◌<◌, ◌≤◌, is_ok, length, drop, slice_index_or, [], ◌+◌, Some, IfOk, IfErr, IsTrue};
ghost use Rattle.std.specs.List.{list_all};
ghost use Rattle.irc_line.specs.Names.{is_channel, is_name};
ghost use Rattle.irc_line.specs.Keys.{are_rising, is_below_all};
ghost use Rattle.buffer_commands.specs.Settings.{Refuses, count_fault, fault_of, order_fault, plain, settings_of, size_fault, within_limits};
ghost use Rattle.buffer_commands.specs.Settings.{channel_limit, query_limit, size_limit};

use crate::options::Options;
use crate::setup_fault::SetupFault;
use buffer_lines::Offset;
use irc_line::{Name, is_name_below};
use std::alloc::{AllocError, Global};
use std::marker::Model;
use wire_bytes::{Copied, copied_all};

/// The most channels that may exist from the start.
// all are joined at once when a session begins, and many networks allow no more
pub const MOST_CHANNELS: usize = 100;

/// The most lines that a channel or a query may keep.
// a client that attaches is sent them all at once, and each node holds them in memory
pub const MOST_LINES: u16 = 500;

/// The most queries that there may be.
// anybody on the network can begin one, and each is held in memory
pub const MOST_QUERIES: u8 = 50;

/// These limits as numbers, as the contract of a function that does nothing.
pub fn limits_of_setups()
    ensures channels { channel_limit ≡ 100 }
    ensures lines { size_limit ≡ 500 }
    ensures queries { query_limit ≡ 50 }
{}

/// The setup of a bouncer.
#[derive(Drop)]
pub struct Setup {
    nick: Name,
    channels: Vec<Name>,
    options: Options,
}

impl Model for Setup {
    ghost use Rattle.buffer_commands.specs.Settings.{KeepsLimits, Settings, settings_of};

    ghost Value = { Settings };

    ghost view = { λ s. settings_of s.nick s.channels.items s.options };

    ghost invariant = { λ s. KeepsLimits s.channels.items s.options };
}

impl Setup {
    /// The setup of a nick and the channels that exist from the start, which must be in rising order of folded name.
    /// The first fault is returned: of the number of channels, then of the channels one by one, then of the sizes in
    /// the order of [`Options`].
    pub fn new(nick: Name, channels: Vec<Name>, options: Options) -> Result<Setup, SetupFault>
        ensures limits { is_ok result ≡ within_limits channels.items options }
        ensures ok { IfOk result (λ s. s ≡ settings_of nick channels.items options) }
        ensures err { IfErr result (λ e. fault_of channels.items options ≡ Some e) }
    {
        check(channels.as_slice(), &options)?;
        Ok(Setup::within_limits(nick, channels, options))
    }

    /// The setup, once its limits hold.
    fn within_limits(nick: Name, channels: Vec<Name>, options: Options) -> Setup
        requires { IsTrue (within_limits channels.items options) }
        ensures { result ≡ settings_of nick channels.items options }
    {
        Setup {
            nick,
            channels,
            options,
        }
    }

    /// The nick `me`, the channel `#x`, and the defaults.
    #[tactic(auto, unfolding(irc_line::specs::Names::is_name, irc_line::specs::Names::is_channel))]
    pub fn plain(alloc: Global) -> Result<Setup, AllocError>
        ensures { IfOk result (λ s. s ≡ plain) }
    {
        let channels = vec![in alloc; named(alloc, b"#x")?]?;
        let nick = named(alloc, b"me")?;
        Ok(Setup {
            nick,
            channels,
            options: Options::default(),
        })
    }

    pub fn nick(&self) -> &Name
        ensures { result.now ≡ self.now.nick }
    {
        &self.nick
    }

    /// The channels that exist from the start, in rising order of folded name.
    pub fn channels(&self) -> &[Name]
        ensures value { result.now ≡ self.now.channels }
        ensures rising { IsTrue (are_rising self.now.channels) }
        ensures channels { IsTrue (list_all is_channel self.now.channels) }
        ensures most { length self.now.channels ≤ channel_limit }
    {
        self.channels.as_slice()
    }

    /// How many lines a channel keeps.
    pub fn channel_size(&self) -> usize
        ensures value { result ≡ self.now.channel_size }
        ensures limit { self.now.channel_size ≤ size_limit }
    {
        self.options.channel_size as usize
    }

    /// How many lines a query keeps.
    pub fn query_size(&self) -> usize
        ensures value { result ≡ self.now.query_size }
        ensures limit { self.now.query_size ≤ size_limit }
    {
        self.options.query_size as usize
    }

    /// How many queries there may be.
    pub fn most_queries(&self) -> usize
        ensures value { result ≡ self.now.most_queries }
        ensures least { 1 ≤ self.now.most_queries }
        ensures most { self.now.most_queries ≤ query_limit }
    {
        self.options.most_queries as usize
    }

    /// Whether playing a channel empties it.
    pub fn clears_channels(&self) -> bool
        ensures { result ≡ self.now.clears_channels }
    {
        self.options.clears_channels
    }

    /// Whether playing a query empties it.
    pub fn clears_queries(&self) -> bool
        ensures { result ≡ self.now.clears_queries }
    {
        self.options.clears_queries
    }

    /// Whether more than one client may be attached.
    pub fn many_clients(&self) -> bool
        ensures { result ≡ self.now.many_clients }
    {
        self.options.many_clients
    }

    pub fn offset(&self) -> Offset
        ensures { result ≡ self.now.offset }
    {
        self.options.offset
    }
}

/// Refuses the first fault.
fn check(channels: &[Name], options: &Options) -> Result<(), SetupFault>
    ensures { Refuses result (fault_of channels.now options.now) }
{
    check_count(channels.len())?;
    check_channels(channels)?;
    check_sizes(options)
}

/// Refuses more channels than there may be.
fn check_count(count: usize) -> Result<(), SetupFault>
    ensures { Refuses result (count_fault count) }
{
    if count > MOST_CHANNELS {
        return Err(SetupFault::TooManyChannels);
    }
    Ok(())
}

/// Refuses the first name that is no channel's or that does not come after the one before it.
fn check_channels(channels: &[Name]) -> Result<(), SetupFault>
    ensures { Refuses result (order_fault 0 channels.now) }
{
    for place in 0..channels.len() {
        if !channels[place].is_channel() {
            return Err(SetupFault::NotAChannel(place));
        }
        if !rises_at(channels, place) {
            return Err(SetupFault::NotRising(place + 1));
        }
    }
    Ok(())
}

/// Whether the name at a place comes before the next one, if there is a next one.
fn rises_at(names: &[Name], place: usize) -> bool
    requires { place < length names.now }
    ensures { result ≡ is_below_all (slice_index_or names.now place [])
        (drop (place + 1) names.now) }
{
    let next = place + 1;
    next == names.len() || is_name_below(names[place].as_bytes(), names[next].as_bytes())
}

/// Refuses the first size that is outside its limits.
fn check_sizes(options: &Options) -> Result<(), SetupFault>
    ensures { Refuses result (size_fault options.now) }
{
    if options.channel_size > MOST_LINES {
        return Err(SetupFault::ChannelSize);
    }
    if options.query_size > MOST_LINES {
        return Err(SetupFault::QuerySize);
    }
    if options.most_queries < 1 || options.most_queries > MOST_QUERIES {
        return Err(SetupFault::MostQueries);
    }
    Ok(())
}

/// The name of bytes that are a name.
fn named(alloc: Global, bytes: &[u8]) -> Result<Name, AllocError>
    requires { IsTrue (is_name bytes.now) }
    ensures { IfOk result (λ n. n ≡ bytes.now) }
{
    let bytes = Vec::from_slice(alloc, bytes)?;
    Ok(Name::from_bytes(bytes).unwrap())
}

impl Copied for Setup {
    fn copy(&self, alloc: Global) -> Result<Self, AllocError> {
        let nick = self.nick.copy(alloc)?;
        let channels = copied_all(alloc, &self.channels)?;
        Ok(Setup {
            nick,
            channels,
            options: self.options,
        })
    }
}
