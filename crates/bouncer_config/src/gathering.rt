//! All that is wrong with a table.
ghost use Rattle.std.specs.Prelude.{◌≡◌, ◌++◌, IfOk, OnOk, map};
ghost use Rattle.std.specs.List.{filter_map};
ghost use Rattle.toml.specs.View.{table_view};
ghost use Rattle.bouncer_config.specs.Faults.{AreFaults, Told, place_of, told, told_of, unknown_names, wrong_at};
ghost use Rattle.bouncer_config.specs.Faults.Told.{NoKey};

use crate::detail::detail_of;
use crate::judging::wrong_at;
use crate::key::Key;
use crate::key_fault::KeyFault;
use crate::lines::line_of;
use crate::problem::Problem;
use crate::unknown::{ALL_KEYS, is_known};
use std::alloc::{AllocError, Global};
use toml::Table;

/// All that is wrong with the table of a text, in the order of the lines. Faults without a line
/// come last.
pub(crate) fn all_faults(
    alloc: Global,
    text: &[u8],
    table: &Table,
) -> Result<Vec<KeyFault>, AllocError>
    ensures { IfOk result (λ faults. AreFaults (table_view table.now) faults.items) }
{
    let mut faults = Vec::new(alloc);
    gather_names(alloc, text, table, &mut faults)?;
    gather_keys(alloc, text, table, ALL_KEYS.as_slice(), &mut faults)?;
    faults.sort_by_key(place_of)?;
    Ok(faults)
}

/// The position of a fault among others.
fn place_of(fault: &KeyFault) -> usize
    ensures { result ≡ place_of fault.now }
{
    fault.line.unwrap_or(usize::MAX)
}

/// A problem of a table as a fault.
fn fault_of(alloc: Global, text: &[u8], table: &Table, problem: Problem) -> KeyFault
    ensures { result.problem ≡ problem }
{
    KeyFault {
        line: line_of(text, table, &problem),
        detail: detail_of(alloc, table, &problem),
        problem,
    }
}

/// The fault that no key has this name.
fn unknown(alloc: Global, name: &str) -> Result<Problem, AllocError>
    ensures { IfOk result (λ problem. told_of problem ≡ NoKey name.now) }
{
    Ok(Problem::Unknown(String::from_str(alloc, name)?))
}

/// Appends a fault for each name that no key has.
fn gather_names(
    alloc: Global,
    text: &[u8],
    table: &Table,
    faults: &mut Vec<KeyFault>,
) -> Result<(), AllocError>
    ensures { OnOk result (told faults.new.items
        ≡ told faults.old.items ++ map NoKey (unknown_names (table_view table.now))) }
{
    'names: for (name, _value) in table.iter() {
        if !is_known(name.as_str().as_bytes()) {
            let problem = unknown(alloc, name.as_str())?;
            faults.push(fault_of(alloc, text, table, problem))?;
        }
    }
    Ok(())
}

/// Appends what is wrong with each of these keys.
fn gather_keys(
    alloc: Global,
    text: &[u8],
    table: &Table,
    keys: &[Key],
    faults: &mut Vec<KeyFault>,
) -> Result<(), AllocError>
    ensures { OnOk result (told faults.new.items ≡ told faults.old.items
        ++ map told_of (filter_map (wrong_at (table_view table.now)) keys.now)) }
{
    match keys {
        [] => Ok(()),
        [key, keys @ ..] => {
            if let Some(problem) = wrong_at(alloc, table, *key)? {
                faults.push(fault_of(alloc, text, table, problem))?;
            }
            gather_keys(alloc, text, table, keys, faults)
        }
    }
}
