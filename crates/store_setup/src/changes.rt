//! Which keys of a configuration have other values than the setup of a store.
ghost use Rattle.std.specs.Prelude.{◌≡◌, ◌↔◌, [], IfOk, filter};
ghost use Rattle.store_setup.specs.Changes.{IsOf, changed_keys, differs, same_names};

use crate::store_setup::StoreSetup;
use bouncer_config::Key;
use buffer_commands::Setup;
use irc_line::{Name, is_same};
use raft_log::GroupSize;
use std::alloc::{AllocError, Global};

/// The keys of a configuration that determine what a log leads to, in the order of keys.
const COMPARED: [Key; 10] = [
    Key::Nick,
    Key::Listen,
    Key::Channels,
    Key::ChanBufferSize,
    Key::QueryBufferSize,
    Key::MaxQueryBuffers,
    Key::OffsetMinutes,
    Key::AutoClearChanBuffer,
    Key::AutoClearQueryBuffer,
    Key::MultiClients,
];

/// The keys whose values differ between a store and a configuration that has this setup and this many nodes, in the
/// order of keys. If there are none, the log can go on.
pub fn changed(
    alloc: Global,
    store: &StoreSetup,
    setup: &Setup,
    nodes: GroupSize,
) -> Result<Vec<Key>, AllocError>
    ensures keys { IfOk result (λ keys. keys.items ≡ changed_keys store.now setup.now nodes) }
    ensures same { IfOk result (λ keys. keys.items ≡ [] ↔ IsOf store.now setup.now nodes) }
{
    changed_of(alloc, store, setup, nodes, &COMPARED)
}

/// The ones among these keys whose values differ.
fn changed_of(
    alloc: Global,
    store: &StoreSetup,
    setup: &Setup,
    nodes: GroupSize,
    keys: &[Key],
) -> Result<Vec<Key>, AllocError>
    ensures { IfOk result
        (λ v. v.items ≡ filter (differs store.now setup.now nodes) keys.now) }
{
    let mut changed = Vec::new(alloc);
    for key in keys {
        if differs(store, setup, nodes, *key) {
            changed.push(*key)?;
        }
    }
    Ok(changed)
}

/// Whether the value of a key differs between a store and a configuration.
fn differs(store: &StoreSetup, setup: &Setup, nodes: GroupSize, key: Key) -> bool
    ensures { result ≡ differs store.now setup.now nodes key }
{
    let old = &store.setup;
    match key {
        Key::Nick => !is_same(old.nick().as_bytes(), setup.nick().as_bytes()),
        Key::Listen => store.nodes.value() != nodes.value(),
        Key::Channels => !are_same_names(old.channels(), setup.channels()),
        Key::ChanBufferSize => old.channel_size() != setup.channel_size(),
        Key::QueryBufferSize => old.query_size() != setup.query_size(),
        Key::MaxQueryBuffers => old.most_queries() != setup.most_queries(),
        Key::OffsetMinutes => old.offset().above_least() != setup.offset().above_least(),
        Key::AutoClearChanBuffer => old.clears_channels() != setup.clears_channels(),
        Key::AutoClearQueryBuffer => old.clears_queries() != setup.clears_queries(),
        Key::MultiClients => old.many_clients() != setup.many_clients(),
        _ => false,
    }
}

/// Whether these are the same names in the same order, byte by byte.
fn are_same_names(first: &[Name], second: &[Name]) -> bool
    ensures { result ≡ same_names first.now second.now }
{
    match first {
        [] => second.is_empty(),
        [one, first @ ..] => match second {
            [] => false,
            [other, second @ ..] => {
                is_same(one.as_bytes(), other.as_bytes()) && are_same_names(first, second)
            }
        },
    }
}
