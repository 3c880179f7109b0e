ghost use Rattle.std.specs.Prelude.{◌≡◌, Some, IfOk, IfErr, map, option_and_then, string_bytes};
ghost use Rattle.toml.specs.View.{table_view};
ghost use Rattle.bouncer_config.specs.KeyTexts.{kind_of, limits_of};
ghost use Rattle.bouncer_config.specs.Texts.{address_of};
ghost use Rattle.bouncer_config.specs.Found.{AreOptions, input_end_in, level_in, number_in, text_at, text_in, value_at};
ghost use Rattle.bouncer_config.specs.Judged.{IsConfig, IsSetup};
ghost use Rattle.bouncer_config.specs.Placing.{folder_of};
ghost use Rattle.bouncer_config.specs.Wrong.{IsProblem, Listens};

use crate::address::Address;
use crate::channel_keys::{ChannelKey, channel_keys};
use crate::disk_paths::record;
use crate::first_lines::on_connect;
use crate::folders::{folder_of, store};
use crate::input_end::InputEnd;
use crate::key::Key;
use crate::lists::{channels, listen};
use crate::log_level::LogLevel;
use crate::password::Password;
use crate::problem::Problem;
use crate::reading::{input_end, log, needed_text, number, offset, text, truth};
use crate::unknown::check_names;
use buffer_commands::{Options, Setup};
use irc_line::{Name, Text};
use raft_log::NodeId;
use std::alloc::Global;
use toml::Table;

/// The configuration with which a bouncer runs.
#[derive(Drop)]
pub struct Config {
    /// The nick, the channels at the start, the sizes of buffers and their options.
    pub setup: Setup,
    /// What clients send in PASS.
    pub password: Password,
    /// Where the server is.
    pub upstream: Address,
    /// What is sent to the server in PASS, if anything.
    pub upstream_password: Option<Password>,
    /// Where each node listens for clients: three, five or seven addresses, all different, none of them the server's.
    pub listen: Vec<Address>,
    /// The paths of the folders of the nodes' journals: one for all nodes, or one for each, node 1's first.
    pub store: Vec<String>,
    /// The path of the file to which the record of a run is written, if there is one.
    pub record: Option<String>,
    /// How often a leader sends a beat, in milliseconds, 10 to 10,000.
    pub beat_ms: u16,
    /// After how long without a leader an election begins, in milliseconds, 50 to 60,000.
    pub timeout_ms: u16,
    /// How many lines may go to the server at once, 1 to 100.
    pub flood_burst: u16,
    /// How long each further line waits, in milliseconds, 0 to 60,000; 0 means not at all.
    pub flood_ms: u16,
    /// How much is logged on standard error.
    pub log: LogLevel,
    /// What the end of standard input does.
    pub input_end: InputEnd,
    /// A start with a log of more entries than this renews it; 0 means never. At most 1,000,000.
    pub renew_at: u32,
    /// The keys of channels, each with the channel's name; if a name occurs twice, the last key counts.
    pub channel_keys: Vec<ChannelKey>,
    /// What each session sends first, without the line ends.
    pub on_connect: Vec<Text>,
}

impl Config {
    /// The configuration that a table gives. The first problem is returned: the first name that no key has, and else
    /// what is wrong with the keys, in the order of the fields here, for a setup the nick, the options and the channels
    /// in turn.
    #[tactic(auto, using(crate::proofs::Places::listed_nodes))]
    pub fn from_table(alloc: Global, table: &Table) -> Result<Config, Problem>
        ensures ok { IfOk result (IsConfig (table_view table.now)) }
        ensures err { IfErr result (IsProblem (table_view table.now)) }
    {
        check_names(alloc, table)?;
        let setup = setup(alloc, table)?;
        let links = read_links(alloc, table)?;
        let store = store(alloc, table, links.listen.len())?;
        let record = record(alloc, table)?;
        let pace = read_pace(table)?;
        Ok(Config {
            setup,
            password: links.password,
            upstream: links.upstream,
            upstream_password: links.upstream_password,
            listen: links.listen,
            store,
            record,
            beat_ms: pace.beat_ms,
            timeout_ms: pace.timeout_ms,
            flood_burst: pace.flood_burst,
            flood_ms: pace.flood_ms,
            log: pace.log,
            input_end: input_end(table)?,
            renew_at: number(table, Key::RenewAt)?,
            channel_keys: channel_keys(alloc, table)?,
            on_connect: on_connect(alloc, table)?,
        })
    }
}

impl Config {
    /// The path of the folder with the journal of a node.
    pub fn folder(&self, node: NodeId) -> &str
        ensures { result.now ≡ folder_of (map string_bytes self.now.store.items) node }
    {
        folder_of(self.store.as_slice(), node)
    }
}

/// How the clients and the server are reached.
#[derive(Drop)]
struct Links {
    password: Password,
    upstream: Address,
    upstream_password: Option<Password>,
    listen: Vec<Address>,
}

/// Reads how the clients and the server are reached.
fn read_links(alloc: Global, table: &Table) -> Result<Links, Problem>
    ensures password { IfOk result (λ l.
        text_at Key.Password (table_view table.now) ≡ Some l.password) }
    ensures upstream_password { IfOk result (λ l.
        text_in (value_at Key.UpstreamPassword (table_view table.now))
        ≡ Some l.upstream_password) }
    ensures listen { IfOk result (λ l. Listens (table_view table.now) l.upstream l.listen.items) }
    ensures err { IfErr result (IsProblem (table_view table.now)) }
{
    let password = password(alloc, table)?;
    let upstream = upstream(table)?;
    let upstream_password = upstream_password(alloc, table)?;
    let listen = listen(alloc, table, upstream)?;
    Ok(Links {
        password,
        upstream,
        upstream_password,
        listen,
    })
}

/// The intervals and rates of a bouncer, and how much it logs.
#[derive(Clone, Copy)]
struct Pace {
    beat_ms: u16,
    timeout_ms: u16,
    flood_burst: u16,
    flood_ms: u16,
    log: LogLevel,
}

/// Reads the intervals and rates of a bouncer, and how much it logs.
fn read_pace(table: &Table) -> Result<Pace, Problem>
    ensures beat { IfOk result (λ p. number_in (limits_of Key.BeatMs)
        (value_at Key.BeatMs (table_view table.now)) ≡ Some p.beat_ms) }
    ensures timeout { IfOk result (λ p. number_in (limits_of Key.TimeoutMs)
        (value_at Key.TimeoutMs (table_view table.now)) ≡ Some p.timeout_ms) }
    ensures burst { IfOk result (λ p. number_in (limits_of Key.FloodBurst)
        (value_at Key.FloodBurst (table_view table.now)) ≡ Some p.flood_burst) }
    ensures flood { IfOk result (λ p. number_in (limits_of Key.FloodMs)
        (value_at Key.FloodMs (table_view table.now)) ≡ Some p.flood_ms) }
    ensures log { IfOk result (λ p. level_in (value_at Key.Log (table_view table.now))
        ≡ Some p.log) }
    ensures err { IfErr result (IsProblem (table_view table.now)) }
{
    Ok(Pace {
        beat_ms: number(table, Key::BeatMs)? as u16,
        timeout_ms: number(table, Key::TimeoutMs)? as u16,
        flood_burst: number(table, Key::FloodBurst)? as u16,
        flood_ms: number(table, Key::FloodMs)? as u16,
        log: log(table)?,
    })
}

/// The own nick.
fn nick(alloc: Global, table: &Table) -> Result<Name, Problem>
    ensures ok { IfOk result (λ n. text_at Key.Nick (table_view table.now) ≡ Some n) }
    ensures err { IfErr result (IsProblem (table_view table.now)) }
{
    let bytes = Vec::from_slice(alloc, needed_text(table, Key::Nick)?.as_bytes())?;
    match Name::from_bytes(bytes) {
        Some(nick) => Ok(nick),
        None => Err(Problem::Refused(Key::Nick)),
    }
}

/// The options of the setup.
fn options(table: &Table) -> Result<Options, Problem>
    ensures ok { IfOk result (AreOptions (table_view table.now)) }
    ensures err { IfErr result (IsProblem (table_view table.now)) }
{
    Ok(Options {
        channel_size: number(table, Key::ChanBufferSize)? as u16,
        query_size: number(table, Key::QueryBufferSize)? as u16,
        most_queries: number(table, Key::MaxQueryBuffers)? as u8,
        clears_channels: truth(table, Key::AutoClearChanBuffer)?,
        clears_queries: truth(table, Key::AutoClearQueryBuffer)?,
        many_clients: truth(table, Key::MultiClients)?,
        offset: offset(table)?,
    })
}

/// The setup of the buffers.
fn setup(alloc: Global, table: &Table) -> Result<Setup, Problem>
    ensures ok { IfOk result (IsSetup (table_view table.now)) }
    ensures err { IfErr result (IsProblem (table_view table.now)) }
{
    let nick = nick(alloc, table)?;
    let options = options(table)?;
    let channels = channels(alloc, table)?;
    match Setup::new(nick, channels, options) {
        Ok(setup) => Ok(setup),
        Err(fault) => Err(Problem::Setup(fault)),
    }
}

/// What clients send in PASS.
fn password(alloc: Global, table: &Table) -> Result<Password, Problem>
    ensures ok { IfOk result (λ p. text_at Key.Password (table_view table.now) ≡ Some p) }
    ensures err { IfErr result (IsProblem (table_view table.now)) }
{
    let bytes = Vec::from_slice(alloc, needed_text(table, Key::Password)?.as_bytes())?;
    match Password::from_bytes(bytes) {
        Some(password) => Ok(password),
        None => Err(Problem::Refused(Key::Password)),
    }
}

/// Where the server is.
fn upstream(table: &Table) -> Result<Address, Problem>
    ensures ok { IfOk result (λ a.
        option_and_then address_of (text_at Key.Upstream (table_view table.now)) ≡ Some a) }
    ensures err { IfErr result (IsProblem (table_view table.now)) }
{
    match Address::from_text(needed_text(table, Key::Upstream)?.as_bytes()) {
        Some(address) => Ok(address),
        None => Err(Problem::Refused(Key::Upstream)),
    }
}

/// What is sent to the server in PASS, if anything.
fn upstream_password(alloc: Global, table: &Table) -> Result<Option<Password>, Problem>
    ensures ok { IfOk result (λ p.
        text_in (value_at Key.UpstreamPassword (table_view table.now)) ≡ Some p) }
    ensures err { IfErr result (IsProblem (table_view table.now)) }
{
    let text = match text(table, Key::UpstreamPassword)? {
        Some(text) => text,
        None => return Ok(None),
    };
    match Password::from_bytes(Vec::from_slice(alloc, text.as_bytes())?) {
        Some(password) => Ok(Some(password)),
        None => Err(Problem::Refused(Key::UpstreamPassword)),
    }
}
