ghost use Rattle.std.specs.Prelude.{◌≡◌, IsTrue};
ghost use Rattle.buffer_commands.specs.Settings.{are_sizes};
ghost use Rattle.setup_spelling.specs.Spelling.{AreOptionsOf, FitOptions, options_in};

use crate::fields::{LineCount, OffsetMinutes, QueryCount};
use buffer_commands::{Options, Setup};
use buffer_lines::Offset;

/// Lines of a channel and of a query, queries, whether playing empties channels and queries and whether many clients
/// may be attached, and the offset.
pub type OptionFields = (
    (((((LineCount, LineCount), QueryCount), bool), bool), bool),
    OffsetMinutes,
);

/// The options of a setup, as the fields that are written.
pub fn fields_of(setup: &Setup) -> OptionFields
    ensures value { result ≡ options_in setup.now }
    ensures fit { FitOptions (options_in setup.now) }
{
    let channel_size = LineCount::new(setup.channel_size() as u16);
    let query_size = LineCount::new(setup.query_size() as u16);
    let most_queries = QueryCount::new(setup.most_queries() as u8);
    let counts = ((channel_size, query_size), most_queries);
    let clears = ((counts, setup.clears_channels()), setup.clears_queries());
    let offset = OffsetMinutes::new(setup.offset().above_least());
    ((clears, setup.many_clients()), offset)
}

/// The options with these fields.
pub fn options_of(fields: OptionFields) -> Options
    ensures value { AreOptionsOf fields result }
    ensures sizes { IsTrue (are_sizes result) }
{
    let (
        (
            ((((channel_size, query_size), most_queries), clears_channels), clears_queries),
            many_clients,
        ),
        offset,
    ) = fields;
    Options {
        channel_size: channel_size.lines(),
        query_size: query_size.lines(),
        most_queries: most_queries.queries(),
        clears_channels,
        clears_queries,
        many_clients,
        offset: Offset::new(offset.above_least()),
    }
}
