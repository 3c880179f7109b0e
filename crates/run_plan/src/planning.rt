//! The lines of a plan.
ghost use Rattle.std.specs.Prelude.{◌≡◌, ◌++◌, ◌+◌, ◌≤◌, IfOk, OnOk, is_some, length, map, option_map, string_bytes};
ghost use Rattle.raft_log.specs.Peers.{IsGroupSize};
ghost use Rattle.run_plan.specs.Plans.{all_names, input_word, node_content, node_lines, plan, planned_of, record_path, server, sizes};

use crate::paths::journal_path;
use crate::text::{push_address, push_line, push_names, push_number};
use bouncer_config::{Address, Config, InputEnd, folder_of};
use buffer_commands::Setup;
use raft_log::NodeId;
use std::alloc::{AllocError, Global};

/// What a run with this configuration would do, in lines of text. It contains no password.
pub fn plan(alloc: Global, config: &Config) -> Result<Vec<u8>, AllocError>
    requires { IsGroupSize (length config.now.listen.items) }
    ensures { IfOk result (λ text. text.items ≡ plan (planned_of config.now)) }
{
    let mut out = Vec::new(alloc);
    let setup = &config.setup;
    push_line(&mut out, b"nick", setup.nick().as_bytes())?;
    push_line(&mut out, b"channels", &channels(alloc, setup)?)?;
    push_line(&mut out, b"server", &server(alloc, config)?)?;
    push_nodes(&mut out, alloc, &config.store, 1, &config.listen)?;
    push_line(&mut out, b"record", record(&config.record))?;
    push_line(&mut out, b"buffers", &buffers(alloc, setup)?)?;
    push_line(&mut out, b"standard input", input(config.input_end))?;
    Ok(out)
}

/// The channels that exist from the start.
fn channels(alloc: Global, setup: &Setup) -> Result<Vec<u8>, AllocError>
    ensures { IfOk result (λ text. text.items ≡ all_names setup.now.channels) }
{
    let mut out = Vec::new(alloc);
    push_names(&mut out, setup.channels())?;
    Ok(out)
}

/// Where the server is, and whether it is sent a password.
fn server(alloc: Global, config: &Config) -> Result<Vec<u8>, AllocError>
    ensures { IfOk result (λ text.
        text.items ≡ server config.now.upstream (is_some config.now.upstream_password)) }
{
    let mut out = Vec::new(alloc);
    push_address(&mut out, config.upstream)?;
    let password: &[u8] = match &config.upstream_password {
        Some(_) => b", with a password",
        None => b", without a password",
    };
    out.extend_from_slice(password)?;
    Ok(out)
}

/// A line for each of these nodes, of which this is the first.
fn push_nodes(
    out: &mut Vec<u8>,
    alloc: Global,
    folders: &[String],
    first: u8,
    listen: &[Address],
) -> Result<(), AllocError>
    requires first { 1 ≤ first }
    requires last { first + length listen.now ≤ 8 }
    ensures { OnOk result (out.new.items ≡ out.old.items
        ++ node_lines (map string_bytes folders.now) first listen.now) }
{
    match listen {
        [] => Ok(()),
        [at, listen @ ..] => {
            let node = NodeId::new(first);
            let mut name = Vec::from_slice(alloc, b"node ")?;
            push_number(&mut name, first as u64)?;
            let content = node_content(alloc, folder_of(folders, node), node, *at)?;
            push_line(out, &name, &content)?;
            push_nodes(out, alloc, folders, first + 1, listen)
        }
    }
}

/// Where clients reach a node, and where its journal is.
fn node_content(
    alloc: Global,
    folder: &str,
    node: NodeId,
    at: Address,
) -> Result<Vec<u8>, AllocError>
    ensures { IfOk result (λ text. text.items ≡ node_content folder.now node at) }
{
    let mut out = Vec::from_slice(alloc, b"clients at ")?;
    push_address(&mut out, at)?;
    out.extend_from_slice(b", journal ")?;
    out.extend_from_slice(journal_path(alloc, folder, node)?.as_bytes())?;
    Ok(out)
}

/// Where the record is written, if one is.
fn record(file: &Option<String>) -> &[u8]
    ensures { result.now ≡ record_path (option_map string_bytes file.now) }
{
    match file {
        Some(path) => path.as_bytes(),
        None => b"none",
    }
}

/// How much is kept.
fn buffers(alloc: Global, setup: &Setup) -> Result<Vec<u8>, AllocError>
    ensures { IfOk result (λ text. text.items ≡ sizes setup.now) }
{
    let mut out = Vec::new(alloc);
    push_number(&mut out, setup.channel_size() as u64)?;
    out.extend_from_slice(b" lines a channel, ")?;
    push_number(&mut out, setup.query_size() as u64)?;
    out.extend_from_slice(b" lines a query, ")?;
    push_number(&mut out, setup.most_queries() as u64)?;
    out.extend_from_slice(b" queries")?;
    Ok(out)
}

/// What the end of standard input does.
fn input(end: InputEnd) -> &'static [u8]
    ensures { result.now ≡ input_word end }
{
    match end {
        InputEnd::Stops => b"its end stops the bouncer",
        InputEnd::Ignored => b"not read",
    }
}
