//! What is wrong with each key of a table, whatever is wrong with the others.
ghost use Rattle.std.specs.Prelude.{◌≡◌, [], IfOk, Some, map, string_bytes};
ghost use Rattle.toml.specs.Data.{as_array, as_bool, as_integer, as_str, as_table};
ghost use Rattle.toml.specs.View.{items_view, table_view, view};
ghost use Rattle.buffer_commands.specs.Settings.{default_options, fault_of};
ghost use Rattle.bouncer_config.specs.KeyTexts.{kind_of};
ghost use Rattle.bouncer_config.specs.Found.{are_different, lines_after};
ghost use Rattle.bouncer_config.specs.Wrong.{number_rule, text_rule};
ghost use Rattle.bouncer_config.specs.Faults.{around_of, beside, nodes_of, server_of, wrong_at, wrong_channels, wrong_folders, wrong_lines, wrong_list, wrong_listen, wrong_number, wrong_paths, wrong_table, wrong_text, wrong_truth, wrong_value};

use crate::address::Address;
use crate::channel_keys::pairs_of;
use crate::disk_paths::is_a_path;
use crate::first_lines::lines_of;
use crate::folders::{are_apart, may_say_paths, paths_in, serves};
use crate::input_end::InputEnd;
use crate::key::{Key, Kind};
use crate::lists::{address_at, are_different, is_among, is_group, named_channels, read_addresses};
use crate::log_level::LogLevel;
use crate::password::is_a_password;
use crate::problem::Problem;
use crate::reading::{find, number_within, offset_of};
use buffer_commands::{MOST_CHANNELS, Options, Setup, SetupFault};
use irc_line::{Name, is_a_name};
use std::alloc::{AllocError, Global};
use toml::{Table, Value};

/// What is wrong with a key of a table, if anything.
pub(crate) fn wrong_at(
    alloc: Global,
    table: &Table,
    key: Key,
) -> Result<Option<Problem>, AllocError>
    ensures { IfOk result (λ problem. problem ≡ wrong_at (table_view table.now) key) }
{
    match find(table, key) {
        Some(value) => wrong_value(alloc, around_of(table), key, value),
        None if key.is_needed() => Ok(Some(Problem::Missing(key))),
        None => Ok(None),
    }
}

/// What a table says about the server and the nodes, which other keys are checked against.
#[derive(Clone, Copy)]
pub(crate) struct Around {
    pub server: Option<Address>,
    /// How many addresses to listen at there are.
    pub nodes: Option<usize>,
}

/// What a table says about the server and the nodes.
fn around_of(table: &Table) -> Around
    ensures { result ≡ around_of (table_view table.now) }
{
    Around {
        server: server_of(table),
        nodes: nodes_of(table),
    }
}

/// How many addresses to listen at the table has, if it has a list of them.
#[tactic(auto, using(crate::proofs::Places::count_of_items))]
fn nodes_of(table: &Table) -> Option<usize>
    ensures { result ≡ nodes_of (table_view table.now) }
{
    let values = find(table, Key::Listen)?.as_array()?;
    Some(values.len())
}

/// The address of the upstream server, if the table has one.
fn server_of(table: &Table) -> Option<Address>
    ensures { result ≡ server_of (table_view table.now) }
{
    address_at(find(table, Key::Upstream)?)
}

/// What is wrong with the value of a key.
fn wrong_value(
    alloc: Global,
    around: Around,
    key: Key,
    value: &Value,
) -> Result<Option<Problem>, AllocError>
    ensures { IfOk result (λ problem.
        problem ≡ wrong_value (kind_of key) key around (view value.now)) }
{
    match key.kind() {
        Kind::Text => Ok(wrong_text(key, value)),
        Kind::Number => Ok(wrong_number(key, value)),
        Kind::Truth => Ok(wrong_truth(key, value)),
        Kind::Texts => wrong_list(alloc, around.server, key, value),
        Kind::Paths => wrong_paths(alloc, around.nodes, key, value),
        Kind::Pairs => wrong_table(alloc, key, value),
    }
}

/// What is wrong with the value of a key that must be a text.
fn wrong_text(key: Key, value: &Value) -> Option<Problem>
    ensures { result ≡ wrong_text key (as_str (view value.now)) }
{
    match value.as_str() {
        Some(text) if may_have_text(key, text.as_bytes()) => None,
        Some(_) => Some(Problem::Refused(key)),
        None => Some(Problem::Kind(key)),
    }
}

/// Whether a key may have this text.
fn may_have_text(key: Key, text: &[u8]) -> bool
    ensures { result ≡ text_rule key text.now }
{
    match key {
        Key::Nick => is_a_name(text),
        Key::Password | Key::UpstreamPassword => is_a_password(text),
        Key::Upstream => Address::from_text(text).is_some(),
        Key::Record => is_a_path(text),
        Key::Log => LogLevel::from_text(text).is_some(),
        Key::Input => InputEnd::from_text(text).is_some(),
        _ => true,
    }
}

/// What is wrong with the value of a key that must be a number.
fn wrong_number(key: Key, value: &Value) -> Option<Problem>
    ensures { result ≡ wrong_number key (as_integer (view value.now)) }
{
    match value.as_integer() {
        Some(number) if may_have_number(key, number) => None,
        Some(_) => Some(Problem::Refused(key)),
        None => Some(Problem::Kind(key)),
    }
}

/// Whether a key may have this number.
fn may_have_number(key: Key, number: i64) -> bool
    ensures { result ≡ number_rule key number }
{
    match key {
        Key::OffsetMinutes => offset_of(number).is_some(),
        _ => number_within(number, key.limits()).is_some(),
    }
}

/// What is wrong with the value of a key that must be a truth value.
fn wrong_truth(key: Key, value: &Value) -> Option<Problem>
    ensures { result ≡ wrong_truth key (as_bool (view value.now)) }
{
    match value.as_bool() {
        Some(_) => None,
        None => Some(Problem::Kind(key)),
    }
}

/// What is wrong with the value of a key that must be a list.
fn wrong_list(
    alloc: Global,
    server: Option<Address>,
    key: Key,
    value: &Value,
) -> Result<Option<Problem>, AllocError>
    ensures { IfOk result (λ problem.
        problem ≡ wrong_list key server (as_array (view value.now))) }
{
    let values = match value.as_array() {
        Some(values) => values.as_slice(),
        None => return Ok(Some(Problem::Kind(key))),
    };
    match key {
        Key::Listen => wrong_listen(alloc, server, values),
        Key::OnConnect => wrong_lines(alloc, values),
        _ => wrong_channels(alloc, values),
    }
}

/// What is wrong with the values to listen at, given the upstream server if it is known.
#[tactic(auto, using(crate::proofs::Places::count_of_items))]
fn wrong_listen(
    alloc: Global,
    server: Option<Address>,
    values: &[Value],
) -> Result<Option<Problem>, AllocError>
    ensures { IfOk result (λ problem. problem ≡ wrong_listen server (items_view values.now)) }
{
    if !is_group(values.len()) {
        return Ok(Some(Problem::ListenCount));
    }
    let mut addresses = Vec::new(alloc);
    if !read_addresses(values, &mut addresses)? {
        return Ok(Some(Problem::Refused(Key::Listen)));
    }
    if are_all_different(server, addresses.as_slice()) {
        Ok(None)
    } else {
        Ok(Some(Problem::ListenTwice))
    }
}

/// Whether no address occurs twice, and the server's, if it is known, not at all.
fn are_all_different(server: Option<Address>, addresses: &[Address]) -> bool
    ensures { result ≡ are_different (beside server addresses.now) }
{
    match server {
        Some(server) => !is_among(server, addresses) && are_different(addresses),
        None => are_different(addresses),
    }
}

/// What is wrong with the values that name the channels.
#[tactic(auto, using(crate::proofs::Places::count_of_items))]
fn wrong_channels(alloc: Global, values: &[Value]) -> Result<Option<Problem>, AllocError>
    ensures { IfOk result (λ problem. problem ≡ wrong_channels (items_view values.now)) }
{
    if values.len() > MOST_CHANNELS {
        return Ok(Some(Problem::ChannelCount));
    }
    match named_channels(alloc, values)? {
        Some(names) => Ok(setup_fault(alloc, names)?.map(Problem::Setup)),
        None => Ok(Some(Problem::Refused(Key::Channels))),
    }
}

/// What is wrong with the values of lines that each session is to send first.
fn wrong_lines(alloc: Global, values: &[Value]) -> Result<Option<Problem>, AllocError>
    ensures { IfOk result (λ problem.
        problem ≡ wrong_lines (lines_after [] (items_view values.now))) }
{
    match lines_of(alloc, values)? {
        Some(_) => Ok(None),
        None => Ok(Some(Problem::Refused(Key::OnConnect))),
    }
}

/// What is wrong with the value of a key that must be a path or a list of them, given the number of nodes if it is
/// known.
fn wrong_paths(
    alloc: Global,
    nodes: Option<usize>,
    key: Key,
    value: &Value,
) -> Result<Option<Problem>, AllocError>
    ensures { IfOk result (λ problem. problem ≡ wrong_paths key nodes (view value.now)) }
{
    if !may_say_paths(value) {
        return Ok(Some(Problem::Kind(key)));
    }
    match paths_in(alloc, value)? {
        Some(paths) => Ok(wrong_folders(nodes, paths.as_slice())),
        None => Ok(Some(Problem::Refused(Key::Store))),
    }
}

/// What is wrong with folders, given the number of nodes if it is known.
fn wrong_folders(nodes: Option<usize>, paths: &[String]) -> Option<Problem>
    ensures { result ≡ wrong_folders nodes (Some (map string_bytes paths.now)) }
{
    if !serves(nodes, paths.len()) {
        Some(Problem::StoreCount)
    } else if !are_apart(paths) {
        Some(Problem::StoreTwice)
    } else {
        None
    }
}

/// What is wrong with the value of a key that must be a table.
fn wrong_table(alloc: Global, key: Key, value: &Value) -> Result<Option<Problem>, AllocError>
    ensures { IfOk result (λ problem. problem ≡ wrong_table key (as_table (view value.now))) }
{
    let Some(pairs) = value.as_table() else {
        return Ok(Some(Problem::Kind(key)));
    };
    match pairs_of(alloc, pairs)? {
        Some(_) => Ok(None),
        None => Ok(Some(Problem::Refused(Key::ChannelKeys))),
    }
}

/// Why no setup has these channels, whatever its nick and options are.
fn setup_fault(alloc: Global, channels: Vec<Name>) -> Result<Option<SetupFault>, AllocError>
    ensures { IfOk result (λ fault. fault ≡ fault_of channels.items default_options) }
{
    let plain = Setup::plain(alloc)?;
    let nick = plain.nick().copy(alloc)?;
    match Setup::new(nick, channels, Options::default()) {
        Ok(_) => Ok(None),
        Err(fault) => Ok(Some(fault)),
    }
}
