//! Names in a table that no key has.
ghost use Rattle.std.specs.Prelude.{◌≡◌, None, MatchResult};
ghost use Rattle.toml.specs.View.{table_view};
ghost use Rattle.bouncer_config.specs.Wrong.{IsProblem, all_keys, first_unknown, is_known};

use crate::key::Key;
use crate::problem::Problem;
use irc_line::is_same;
use std::alloc::Global;
use toml::Table;

/// Every key.
pub(crate) const ALL_KEYS: [Key; 24] = [
    Key::Nick,
    Key::Password,
    Key::Upstream,
    Key::UpstreamPassword,
    Key::Listen,
    Key::Store,
    Key::Record,
    Key::Channels,
    Key::ChanBufferSize,
    Key::QueryBufferSize,
    Key::MaxQueryBuffers,
    Key::OffsetMinutes,
    Key::AutoClearChanBuffer,
    Key::AutoClearQueryBuffer,
    Key::MultiClients,
    Key::BeatMs,
    Key::TimeoutMs,
    Key::FloodBurst,
    Key::FloodMs,
    Key::Log,
    Key::Input,
    Key::RenewAt,
    Key::ChannelKeys,
    Key::OnConnect,
];

/// Whether some key has this name.
pub(crate) fn is_known(name: &[u8]) -> bool
    ensures { result ≡ is_known name.now }
{
    ALL_KEYS
        .iter()
        .any(|key| is_same(name, key.text().as_bytes()))
}

/// Refuses the first name that no key has.
pub(crate) fn check_names(alloc: Global, table: &Table) -> Result<(), Problem>
    ensures { MatchResult result (λ _. first_unknown (table_view table.now) ≡ None)
        (IsProblem (table_view table.now)) }
{
    'names: for (name, _value) in table.iter() {
        if !is_known(name.as_str().as_bytes()) {
            return Err(Problem::Unknown(String::from_str(alloc, name.as_str())?));
        }
    }
    Ok(())
}
