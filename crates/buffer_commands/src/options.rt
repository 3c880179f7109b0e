use buffer_lines::Offset;

/// The parts of a setup that have defaults.
#[derive(Clone, Copy, Debug, PartialEq, Eq)]
pub struct Options {
    /// How many lines a channel keeps, at most 500.
    pub channel_size: u16,
    /// How many lines a query keeps, at most 500.
    pub query_size: u16,
    /// How many queries there may be, 1 to 50.
    pub most_queries: u8,
    /// Whether playing a channel empties it.
    pub clears_channels: bool,
    /// Whether playing a query empties it.
    pub clears_queries: bool,
    /// Whether more than one client may be attached.
    pub many_clients: bool,
    /// How far the times of played lines are ahead of UTC.
    pub offset: Offset,
}

/// 50 lines each, 50 queries, all options on, and no offset.
impl Default for Options {
    ghost use Rattle.std.specs.Prelude.{◌≡◌};
    ghost use Rattle.buffer_commands.specs.Settings.{default_options};

    ghost is_default = { λ o. o ≡ default_options };

    fn default() -> Options
        ensures { result ≡ default_options }
    {
        Options {
            channel_size: 50,
            query_size: 50,
            most_queries: 50,
            clears_channels: true,
            clears_queries: true,
            many_clients: true,
            offset: Offset::default(),
        }
    }
}
