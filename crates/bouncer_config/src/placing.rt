//! The paths of a configuration, which are relative to the folder of its file.
ghost use Rattle.std.specs.Prelude.{◌≡◌, ◌++◌, IfOk, OnErr, OnOk, map, option_map, string_bytes};
ghost use Rattle.bouncer_config.specs.Placing.{IsPlaced, placed};

use crate::config::Config;
use std::alloc::{AllocError, Global};
use std::path::Path;

impl Config {
    /// Makes the paths that are not absolute relative to the folder of this file, from which the
    /// configuration was read. A refused call changes nothing.
    pub fn place(&mut self, alloc: Global, file: &str) -> Result<(), AllocError>
        ensures ok { OnOk result (IsPlaced file.now self.old self.new) }
        ensures err { OnErr result (self.new ≡ self.old) }
    {
        let store = placed_all(alloc, file, self.store.as_slice())?;
        let record = placed_record(alloc, file, &self.record)?;
        self.store = store;
        self.record = record;
        Ok(())
    }
}

/// Paths, each placed by a file.
fn placed_all(alloc: Global, file: &str, paths: &[String]) -> Result<Vec<String>, AllocError>
    ensures { IfOk result (λ all.
        map string_bytes all.items ≡ map (placed file.now) (map string_bytes paths.now)) }
{
    let mut all = Vec::new(alloc);
    push_placed(alloc, file, paths, &mut all)?;
    Ok(all)
}

/// Appends paths, each placed by a file.
fn push_placed(
    alloc: Global,
    file: &str,
    paths: &[String],
    all: &mut Vec<String>,
) -> Result<(), AllocError>
    ensures { OnOk result (map string_bytes all.new.items ≡ map string_bytes all.old.items
        ++ map (placed file.now) (map string_bytes paths.now)) }
{
    match paths {
        [] => Ok(()),
        [first, paths @ ..] => {
            all.push(placed(alloc, file, first.as_str())?)?;
            push_placed(alloc, file, paths, all)
        }
    }
}

/// The path of a record, if there is one, placed by a file.
fn placed_record(
    alloc: Global,
    file: &str,
    path: &Option<String>,
) -> Result<Option<String>, AllocError>
    ensures { IfOk result (λ placed_path. option_map string_bytes placed_path ≡
        option_map (placed file.now) (option_map string_bytes path.now)) }
{
    match path {
        Some(path) => Ok(Some(placed(alloc, file, path.as_str())?)),
        None => Ok(None),
    }
}

/// A path in a file, placed by that file.
fn placed(alloc: Global, file: &str, path: &str) -> Result<String, AllocError>
    ensures { IfOk result (λ text. string_bytes text ≡ placed file.now path.now) }
{
    match Path::new(file).parent() {
        Some(folder) => Ok(folder.join(alloc, path)?.into_string()),
        None => String::from_str(alloc, path),
    }
}
