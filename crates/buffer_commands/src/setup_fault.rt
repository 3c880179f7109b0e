use thiserror::Error;

/// Why a setup is refused. If there are several faults, the first in this order is reported, and of
/// two faulty names the first.
#[derive(Clone, Copy, Debug, Drop, PartialEq, Eq, Error)]
pub enum SetupFault {
    #[error("there are more than 100 channels")]
    TooManyChannels,
    /// The name at this place, from 0, is no channel's name.
    #[error("name {0} is no channel's")]
    NotAChannel(usize),
    /// The folded name at this place, from 0, does not come after the one before it.
    #[error("channel {0} is not in rising order")]
    NotRising(usize),
    #[error("a channel would keep more than 500 lines")]
    ChannelSize,
    #[error("a query would keep more than 500 lines")]
    QuerySize,
    #[error("the most queries are not 1 to 50")]
    MostQueries,
}
