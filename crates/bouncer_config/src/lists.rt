//! The lists of a table: the addresses to listen at, and the channels.
ghost use Rattle.std.specs.Prelude.{◌≡◌, ◌==◌, ◌↔◌, ◌≤◌, ◌+◌, Some, None, IfOk, [], IfErr, IfSome, IsNone, IsTrue, length, option_map, if◌then◌else◌, option_and_then};
ghost use Rattle.std.specs.List.{list_any};
ghost use Rattle.toml.specs.View.{items_view, table_view, view};
ghost use Rattle.toml.specs.Data.{as_str};
ghost use Rattle.irc_line.specs.Keys.{put_in};
ghost use Rattle.raft_log.specs.Peers.{IsGroupSize};
ghost use Rattle.bouncer_config.specs.Found.{are_different, channel_of, channels_in, names_after, place_in, ports_after, text_at, value_at};
ghost use Rattle.bouncer_config.specs.Faults.{is_group};
ghost use Rattle.bouncer_config.specs.Texts.{address_of};
ghost use Rattle.bouncer_config.specs.Wrong.{HasFewChannels, IsProblem, Listens, list_at};

use crate::address::Address;
use crate::key::Key;
use crate::problem::Problem;
use crate::reading::{find, needed};
use buffer_commands::MOST_CHANNELS;
use irc_line::{Name, is_channel_name, is_name_below};
use std::alloc::{AllocError, Global};
use toml::{Table, Value};

/// The address of a value, if it is one.
pub(crate) fn address_at(value: &Value) -> Option<Address>
    ensures { result ≡ option_and_then address_of (as_str (view value.now)) }
{
    Address::from_text(value.as_str()?.as_bytes())
}

/// Reads the addresses of values after those that were read, and returns whether each value is one.
pub(crate) fn read_addresses(
    values: &[Value],
    addresses: &mut Vec<Address>,
) -> Result<bool, AllocError>
    ensures read { IfOk result (λ all. ports_after addresses.old.items (items_view values.now)
        ≡ (if all then Some addresses.new.items else None)) }
    ensures count { IfOk result (λ all. IsTrue all
        → length addresses.new.items ≡ length addresses.old.items + length values.now) }
{
    match values {
        [] => Ok(true),
        [value, values @ ..] => match address_at(value) {
            Some(address) => {
                addresses.push(address)?;
                read_addresses(values, addresses)
            }
            None => Ok(false),
        },
    }
}

/// The channel of this name, if it is one's.
#[tactic(auto, using(crate::proofs::Places::named_channel))]
pub(crate) fn channel_named(alloc: Global, name: &[u8]) -> Result<Option<Name>, AllocError>
    ensures { IfOk result (λ c. c ≡ channel_of name.now) }
{
    if !is_channel_name(name) {
        return Ok(None);
    }
    Ok(Name::from_bytes(Vec::from_slice(alloc, name)?))
}

/// The channel of a value, if it names one.
fn channel_at(alloc: Global, value: &Value) -> Result<Option<Name>, AllocError>
    ensures { IfOk result (λ c. c ≡ option_and_then channel_of (as_str (view value.now))) }
{
    match value.as_str() {
        Some(text) => channel_named(alloc, text.as_bytes()),
        None => Ok(None),
    }
}

/// Where a name belongs among names that rise.
fn place_in(names: &[Name], name: &[u8]) -> usize
    ensures value { result ≡ place_in name.now names.now }
    ensures within { result ≤ length names.now }
{
    match names {
        [first, names @ ..] if is_name_below(first.as_bytes(), name) => place_in(names, name) + 1,
        _ => 0,
    }
}

/// Inserts a name where it belongs among names that rise.
#[tactic(auto, using(crate::proofs::Places::insert_place))]
fn put_in(name: Name, names: &mut Vec<Name>) -> Result<(), AllocError>
    ensures { IfOk result (λ _. names.new.items ≡ put_in name names.old.items) }
{
    let place = place_in(names.as_slice(), name.as_bytes());
    names.insert(place, name)?;
    Ok(())
}

/// Reads the channels of values into those that were read, and returns whether each value is one.
fn read_channels(alloc: Global, values: &[Value], names: &mut Vec<Name>) -> Result<bool, AllocError>
    ensures { IfOk result (λ all. names_after names.old.items (items_view values.now)
        ≡ (if all then Some names.new.items else None)) }
{
    match values {
        [] => Ok(true),
        [value, values @ ..] => match channel_at(alloc, value)? {
            Some(name) => {
                put_in(name, names)?;
                read_channels(alloc, values, names)
            }
            None => Ok(false),
        },
    }
}

/// Whether a group may have this many nodes.
pub(crate) fn is_group(count: usize) -> bool
    ensures group { IsTrue result ↔ IsGroupSize count }
    ensures value { result ≡ is_group count }
{
    count == 3 || count == 5 || count == 7
}

/// Whether an address is among others.
pub(crate) fn is_among(address: Address, others: &[Address]) -> bool
    ensures { result ≡ list_any (λ q. q == address) others.now }
{
    others.iter().any(|other| other.port() == address.port())
}

/// Whether no address occurs twice.
pub(crate) fn are_different(addresses: &[Address]) -> bool
    ensures { result ≡ are_different addresses.now }
{
    match addresses {
        [] => true,
        [first, rest @ ..] => !is_among(*first, rest) && are_different(rest),
    }
}

/// The values to listen at.
fn listed(table: &Table) -> Result<&[Value], Problem>
    ensures ok { IfOk result (λ v.
        list_at Key.Listen (table_view table.now) ≡ Some (items_view v.now)) }
    ensures err { IfErr result (IsProblem (table_view table.now)) }
{
    match needed(table, Key::Listen)?.as_array() {
        Some(values) => Ok(values.as_slice()),
        None => Err(Problem::Kind(Key::Listen)),
    }
}

/// The values to listen at, if they are as many as a group has nodes.
fn listed_for_a_group(table: &Table) -> Result<&[Value], Problem>
    ensures ok { IfOk result (λ v.
        list_at Key.Listen (table_view table.now) ≡ Some (items_view v.now)) }
    ensures group { IfOk result (λ v. IsGroupSize (length v.now)) }
    ensures err { IfErr result (IsProblem (table_view table.now)) }
{
    let values = listed(table)?;
    if !is_group(values.len()) {
        return Err(Problem::ListenCount);
    }
    Ok(values)
}

/// The addresses to listen at, one for each node, given that of the upstream server.
pub(crate) fn listen(
    alloc: Global,
    table: &Table,
    upstream: Address,
) -> Result<Vec<Address>, Problem>
    requires { option_and_then address_of (text_at Key.Upstream (table_view table.now))
        ≡ Some upstream }
    ensures ok { IfOk result (λ v. Listens (table_view table.now) upstream v.items) }
    ensures err { IfErr result (IsProblem (table_view table.now)) }
{
    let values = listed_for_a_group(table)?;
    let mut addresses = Vec::new(alloc);
    if !read_addresses(values, &mut addresses)? {
        return Err(Problem::Refused(Key::Listen));
    }
    if is_among(upstream, addresses.as_slice()) || !are_different(addresses.as_slice()) {
        return Err(Problem::ListenTwice);
    }
    Ok(addresses)
}

/// The channels that values name, in rising order of folded names.
pub(crate) fn named_channels(
    alloc: Global,
    values: &[Value],
) -> Result<Option<Vec<Name>>, AllocError>
    ensures { IfOk result (λ v.
        option_map (λ names. names.items) v ≡ names_after [] (items_view values.now)) }
{
    let mut names = Vec::new(alloc);
    if read_channels(alloc, values, &mut names)? {
        Ok(Some(names))
    } else {
        Ok(None)
    }
}

/// The values that name the channels, none by default.
fn channel_values(table: &Table) -> Result<Option<&[Value]>, Problem>
    ensures none { IfOk result (λ v.
        IsNone v → value_at Key.Channels (table_view table.now) ≡ None) }
    ensures some { IfOk result (λ v. IfSome v (λ vs.
        list_at Key.Channels (table_view table.now) ≡ Some (items_view vs.now))) }
    ensures err { IfErr result (IsProblem (table_view table.now)) }
{
    match find(table, Key::Channels) {
        Some(value) => match value.as_array() {
            Some(values) => Ok(Some(values.as_slice())),
            None => Err(Problem::Kind(Key::Channels)),
        },
        None => Ok(None),
    }
}

/// The channels in rising order of folded names, none by default.
pub(crate) fn channels(alloc: Global, table: &Table) -> Result<Vec<Name>, Problem>
    ensures ok { IfOk result (λ v.
        channels_in (value_at Key.Channels (table_view table.now)) ≡ Some v.items) }
    ensures few { IfOk result (λ _. HasFewChannels (table_view table.now)) }
    ensures err { IfErr result (IsProblem (table_view table.now)) }
{
    let values = match channel_values(table)? {
        Some(values) => values,
        None => return Ok(Vec::new(alloc)),
    };
    if values.len() > MOST_CHANNELS {
        return Err(Problem::ChannelCount);
    }
    match named_channels(alloc, values)? {
        Some(names) => Ok(names),
        None => Err(Problem::Refused(Key::Channels)),
    }
}
