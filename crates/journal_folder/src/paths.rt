//! The paths of folders that are to replace others.
ghost use Rattle.std.specs.Prelude.{◌≡◌, ◌+◌, ◌++◌, IfErr, IfOk, OnOk, length, map, option_map, string_bytes};
ghost use Rattle.std.specs.List.{All};
ghost use Rattle.journal_folder.specs.Beside.{ArePaths, IsNamelessIn, IsPathsOfItself, beside};
ghost use Rattle.journal_folder.specs.declared.paths.NoPaths.TheVariants.{Memory};

use std::alloc::{AllocError, Global};
use std::path::Path;

/// The folder of the journals, and what is beside it while it is renewed.
#[derive(Drop)]
pub struct Paths {
    pub folder: String,
    /// New journals, of which some may not be whole. Nobody uses them.
    pub renewing: String,
    /// New journals, all of them whole: they are to be used in place of those in the folder.
    pub renewed: String,
}

/// Why nothing can be beside some folders.
#[derive(Debug, Drop)]
pub enum NoPaths {
    /// This one of them has no name of its own, such as `.` and `/`.
    Nameless(String),
    Memory,
}

impl From<AllocError> for NoPaths {
    ghost from_gives = { λ _ e. e ≡ Memory };

    fn from(_error: AllocError) -> Self {
        NoPaths::Memory
    }
}

impl Paths {
    /// Those of a folder. None if it has no name of its own, such as `.` and `/`: then no other one can replace it.
    pub fn of(alloc: Global, folder: &str) -> Result<Option<Paths>, AllocError>
        ensures { IfOk result (λ paths. ArePaths folder.now paths) }
    {
        let Some(renewing) = beside(alloc, folder, "renewing")? else {
            return Ok(None);
        };
        let Some(renewed) = beside(alloc, folder, "renewed")? else {
            return Ok(None);
        };
        Ok(Some(Paths {
            folder: String::from_str(alloc, folder)?,
            renewing,
            renewed,
        }))
    }

    /// Those of each of these folders, in their order.
    pub fn of_all(alloc: Global, folders: &[String]) -> Result<Vec<Paths>, NoPaths>
        ensures folders { IfOk result (λ all. map (λ paths. string_bytes paths.folder) all.items
            ≡ map string_bytes folders.now) }
        ensures count { IfOk result (λ all. length all.items ≡ length folders.now) }
        ensures beside { IfOk result (λ all. All IsPathsOfItself all.items) }
        ensures nameless { IfErr result (IsNamelessIn (map string_bytes folders.now)) }
    {
        let mut all = Vec::new(alloc);
        push_paths(alloc, &mut all, folders)?;
        Ok(all)
    }
}

/// Appends those of each of these folders.
#[tactic(auto, using(crate::proofs::Numbered::one_more))]
fn push_paths(alloc: Global, all: &mut Vec<Paths>, folders: &[String]) -> Result<(), NoPaths>
    requires { All IsPathsOfItself all.old.items }
    ensures folders { OnOk result (map (λ paths. string_bytes paths.folder) all.new.items
        ≡ map (λ paths. string_bytes paths.folder) all.old.items
        ++ map string_bytes folders.now) }
    ensures count { OnOk result
        (length all.new.items ≡ length all.old.items + length folders.now) }
    ensures beside { OnOk result (All IsPathsOfItself all.new.items) }
    ensures nameless { IfErr result (IsNamelessIn (map string_bytes folders.now)) }
{
    match folders {
        [] => Ok(()),
        [folder, folders @ ..] => {
            let Some(paths) = Paths::of(alloc, folder.as_str())? else {
                return Err(NoPaths::Nameless(String::from_str(alloc, folder.as_str())?));
            };
            all.push(paths).map_err(|_| NoPaths::Memory)?;
            push_paths(alloc, all, folders)
        }
    }
}

/// The folders of the new journals.
pub fn renewing_of(alloc: Global, all: &[Paths]) -> Result<Vec<String>, AllocError>
    ensures folders { IfOk result (λ renewing.
        map string_bytes renewing.items ≡ map (λ paths. string_bytes paths.renewing) all.now) }
    ensures count { IfOk result (λ renewing. length renewing.items ≡ length all.now) }
{
    let mut renewing = Vec::new(alloc);
    push_renewing(alloc, &mut renewing, all)?;
    Ok(renewing)
}

/// Appends copies of the folders of the new journals.
#[tactic(auto, using(crate::proofs::Numbered::one_more))]
fn push_renewing(alloc: Global, renewing: &mut Vec<String>, all: &[Paths]) -> Result<(), AllocError>
    ensures folders { OnOk result (map string_bytes renewing.new.items
        ≡ map string_bytes renewing.old.items
        ++ map (λ paths. string_bytes paths.renewing) all.now) }
    ensures count { OnOk result
        (length renewing.new.items ≡ length renewing.old.items + length all.now) }
{
    match all {
        [] => Ok(()),
        [paths, all @ ..] => {
            renewing.push(String::from_str(alloc, paths.renewing.as_str())?)?;
            push_renewing(alloc, renewing, all)
        }
    }
}

/// In the same folder, the name of this one with an ending. None if it has no name of its own.
pub fn beside(alloc: Global, folder: &str, ending: &str) -> Result<Option<String>, AllocError>
    ensures { IfOk result (λ path. option_map string_bytes path ≡ beside folder.now ending.now) }
{
    let path = Path::new(folder);
    match path.file_name() {
        Some(name) => {
            let name = format!(in alloc; "{name}.{ending}")?;
            Ok(Some(path.with_file_name(alloc, name.as_str())?.into_string()))
        }
        None => Ok(None),
    }
}
