//! The folders of the journals.
ghost use Rattle.std.specs.Prelude.{◌≡◌, [], Some, true, IfErr, IfOk, if◌then◌else◌, length, map, option_and_then, option_map, string_bytes};
ghost use Rattle.std.specs.List.{list_any};
ghost use Rattle.irc_line.specs.Names.{same_bytes};
ghost use Rattle.toml.specs.Data.{as_str};
ghost use Rattle.toml.specs.View.{items_view, table_view, view};
ghost use Rattle.bouncer_config.specs.Found.{are_apart, item_count, path_of, paths_after, paths_at, paths_in, serves};
ghost use Rattle.bouncer_config.specs.Placing.{folder_of};
ghost use Rattle.bouncer_config.specs.Wrong.{IsProblem, has_kind, list_at};

use crate::disk_paths::is_a_path;
use crate::key::{Key, Kind};
use crate::problem::Problem;
use crate::reading::needed;
use irc_line::is_same;
use raft_log::NodeId;
use std::alloc::{AllocError, Global};
use toml::{Table, Value};

/// The folder with the journal of a node, from one for all nodes or one for each.
pub fn folder_of(folders: &[String], node: NodeId) -> &str
    ensures { result.now ≡ folder_of (map string_bytes folders.now) node }
{
    match folders {
        [one] => one.as_str(),
        _ => match folders.get(node.value() as usize - 1) {
            Some(folder) => folder.as_str(),
            None => "",
        },
    }
}

/// The path of a value, if it is one.
fn path_at(alloc: Global, value: &Value) -> Result<Option<String>, AllocError>
    ensures path { IfOk result (λ path. option_map string_bytes path
        ≡ option_and_then path_of (as_str (view value.now))) }
{
    match value.as_str() {
        Some(text) if is_a_path(text.as_bytes()) => Ok(Some(String::from_str(alloc, text)?)),
        _ => Ok(None),
    }
}

/// Reads the paths of values after those that were read, and returns whether each value is one.
fn read_paths(alloc: Global, values: &[Value], paths: &mut Vec<String>) -> Result<bool, AllocError>
    ensures { IfOk result (λ all. paths_after (map string_bytes paths.old.items)
        (items_view values.now) ≡ (if all then Some (map string_bytes paths.new.items) else None)) }
{
    match values {
        [] => Ok(true),
        [value, values @ ..] => match path_at(alloc, value)? {
            Some(path) => {
                paths.push(path)?;
                read_paths(alloc, values, paths)
            }
            None => Ok(false),
        },
    }
}

/// The paths of values, if each is one.
fn paths_of(alloc: Global, values: &[Value]) -> Result<Option<Vec<String>>, AllocError>
    ensures { IfOk result (λ paths. option_map (λ all. map string_bytes all.items) paths
        ≡ paths_after [] (items_view values.now)) }
{
    let mut paths = Vec::new(alloc);
    if read_paths(alloc, values, &mut paths)? {
        Ok(Some(paths))
    } else {
        Ok(None)
    }
}

/// The paths of a value, which is one path or a list of them.
pub(crate) fn paths_in(alloc: Global, value: &Value) -> Result<Option<Vec<String>>, AllocError>
    ensures { IfOk result (λ paths. option_map (λ all. map string_bytes all.items) paths
        ≡ paths_in (view value.now)) }
{
    if value.as_str().is_none() {
        return match value.as_array() {
            Some(values) => paths_of(alloc, values.as_slice()),
            None => Ok(None),
        };
    }
    match path_at(alloc, value)? {
        Some(path) => {
            let mut paths = Vec::new(alloc);
            paths.push(path)?;
            Ok(Some(paths))
        }
        None => Ok(None),
    }
}

/// Whether a value may give paths: it is a text or a list.
pub(crate) fn may_say_paths(value: &Value) -> bool
    ensures { result ≡ has_kind Kind.Paths (view value.now) }
{
    value.as_str().is_some() || value.as_array().is_some()
}

/// Whether a path is among others.
fn is_among(path: &str, others: &[String]) -> bool
    ensures { result ≡ list_any (λ q. same_bytes q path.now) (map string_bytes others.now) }
{
    match others {
        [] => false,
        [other, others @ ..] => {
            is_same(other.as_str().as_bytes(), path.as_bytes()) || is_among(path, others)
        }
    }
}

/// Whether no path occurs twice.
pub(crate) fn are_apart(paths: &[String]) -> bool
    ensures { result ≡ are_apart (map string_bytes paths.now) }
{
    match paths {
        [] => true,
        [first, rest @ ..] => !is_among(first.as_str(), rest) && are_apart(rest),
    }
}

/// Whether this many folders suffice for the nodes: one for all, or one for each, if their number is known.
pub(crate) fn serves(nodes: Option<usize>, folders: usize) -> bool
    ensures { result ≡ serves nodes folders }
{
    match nodes {
        Some(nodes) => folders == 1 || folders == nodes,
        None => true,
    }
}

/// The folders of the journals, one for all nodes or one for each of this many.
pub(crate) fn store(alloc: Global, table: &Table, nodes: usize) -> Result<Vec<String>, Problem>
    requires { option_map item_count (list_at Key.Listen (table_view table.now)) ≡ Some nodes }
    ensures ok { IfOk result (λ paths. paths_at Key.Store (table_view table.now)
        ≡ Some (map string_bytes paths.items)) }
    ensures count { IfOk result (λ paths. serves (Some nodes) (length paths.items) ≡ true) }
    ensures apart { IfOk result (λ paths. are_apart (map string_bytes paths.items) ≡ true) }
    ensures err { IfErr result (IsProblem (table_view table.now)) }
{
    let value = needed(table, Key::Store)?;
    if !may_say_paths(value) {
        return Err(Problem::Kind(Key::Store));
    }
    let Some(paths) = paths_in(alloc, value)? else {
        return Err(Problem::Refused(Key::Store));
    };
    if !serves(Some(nodes), paths.len()) {
        return Err(Problem::StoreCount);
    }
    if !are_apart(paths.as_slice()) {
        return Err(Problem::StoreTwice);
    }
    Ok(paths)
}
