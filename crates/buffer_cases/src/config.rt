//! Configurations that are taken: one with every key, and the least one.
use crate::buffer::setups::{has_options, is_told};
use bouncer_config::{ChannelKey, Config, LogLevel, Password, parse_config};
use buffer_commands::Options;
use buffer_lines::Offset;
use irc_line::Text;
use raft_log::NodeId;
use std::alloc::{AllocError, Global};
use std::test::Fail;

const EVERY: &[u8] = b"
nick = \"me\"
password = \"pass\"
upstream = \"127.0.0.1:6667\"
upstream_password = \"secret\"
listen = [\"127.0.0.1:6701\", \"127.0.0.1:65535\", \"127.0.0.1:1\"]
store = [\"/a/store\", \"/b/store\", \"/c/store\"]
record = \"run.record\"
channels = [\"#y\", \"&A\", \"#X\"]
chan_buffer_size = 500
query_buffer_size = 0
max_query_buffers = 1
auto_clear_chan_buffer = false
auto_clear_query_buffer = false
multi_clients = false
offset_minutes = -60
beat_ms = 10
timeout_ms = 60000
flood_burst = 100
flood_ms = 0
log = \"debug\"
renew_at = 1000000
channel_keys = { \"#k\" = \"sesame\" }
on_connect = [\"MODE me +i\"]
";

const LEAST: &[u8] = b"
nick = \"me\"
password = \"pass\"
upstream = \"127.0.0.1:6667\"
listen = [\"127.0.0.1:1\", \"127.0.0.1:2\", \"127.0.0.1:3\"]
store = \"store\"
";

/// Whether these are the plain values of the configuration with every key.
fn has_values(config: &Config) -> bool {
    config.password.as_bytes() == b"pass".as_slice()
        && config.upstream.port() == 6667
        && config.folder(NodeId::new(1)) == "/a/store"
        && config.folder(NodeId::new(3)) == "/c/store"
        && config.beat_ms == 10
        && config.timeout_ms == 60_000
        && config.flood_burst == 100
        && config.flood_ms == 0
        && config.log == LogLevel::Debug
        && config.renew_at == 1_000_000
}

/// Whether these are the key of a channel and the first line of the configuration with every key.
fn has_first_lines(keys: &[ChannelKey], lines: &[Text]) -> bool {
    match (keys, lines) {
        ([key], [line]) => {
            key.channel.as_bytes() == b"#k".as_slice()
                && key.key.as_bytes() == b"sesame".as_slice()
                && line.as_bytes() == b"MODE me +i".as_slice()
        }
        _ => false,
    }
}

/// Whether these are the texts that may be left out, of the configuration with every key.
fn has_texts(password: &Option<Password>, record: &Option<String>) -> bool {
    match (password, record) {
        (Some(password), Some(path)) => {
            password.as_bytes() == b"secret".as_slice() && path.as_str() == "run.record"
        }
        _ => false,
    }
}

/// Whether this is the setup of the configuration with every key.
fn is_set_up(config: &Config) -> bool {
    let options = Options {
        channel_size: 500,
        query_size: 0,
        most_queries: 1,
        clears_channels: false,
        clears_queries: false,
        many_clients: false,
        offset: Offset::new(1379),
    };
    has_options(&config.setup, &options)
}

/// Whether a configuration has what the least one leaves out.
fn is_usual(config: &Config) -> bool {
    config.upstream_password.is_none()
        && config.record.is_none()
        && config.beat_ms == 100
        && config.timeout_ms == 1_000
        && config.flood_burst == 5
        && config.flood_ms == 2_000
        && config.log == LogLevel::Info
        && config.renew_at == 0
        && config.setup.channels().is_empty()
        && config.setup.offset().above_least() == 1439
}

/// Whether this is the configuration with every key, its channels by their folded names.
fn is_every(alloc: Global, config: &Config) -> Result<bool, AllocError> {
    Ok(
        has_values(config)
            && has_texts(&config.upstream_password, &config.record)
            && has_first_lines(config.channel_keys.as_slice(), config.on_connect.as_slice())
            && config.listen.len() == 3
            && is_set_up(config)
            && is_told(alloc, &config.setup, b"me #X #y &A ")?,
    )
}

/// Whether a text is taken, as the configuration with every key or as the least one.
fn is_taken(alloc: Global, text: &[u8], has_every: bool) -> Result<bool, AllocError> {
    match parse_config(alloc, text) {
        Ok(config) if has_every => is_every(alloc, &config),
        Ok(config) => Ok(is_usual(&config)),
        Err(_) => Ok(false),
    }
}

#[test]
fn every_key_is_read_and_the_rest_is_as_usual(rt: HostRuntime) -> Result<(), Fail> {
    assert!(rt; is_taken(rt.alloc(), EVERY, true)?);
    assert!(rt; is_taken(rt.alloc(), LEAST, false)?);
    Ok(())
}
