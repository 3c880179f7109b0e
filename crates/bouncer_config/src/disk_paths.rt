//! The paths of a configuration.
ghost use Rattle.std.specs.Prelude.{◌≡◌, ◌==◌, not, Some, IfOk, IfErr, IfSome, IsTrue, option_map, string_bytes};
ghost use Rattle.std.specs.List.{list_all};
ghost use Rattle.toml.specs.View.{table_view};
ghost use Rattle.bouncer_config.specs.Texts.{is_path};
ghost use Rattle.bouncer_config.specs.Found.{text_at, text_in, value_at};
ghost use Rattle.bouncer_config.specs.Wrong.{IsProblem};

use crate::key::Key;
use crate::problem::Problem;
use crate::reading::{needed_text, text};
use std::alloc::Global;
use toml::Table;

/// Whether none of these bytes is NUL.
fn is_without_nul(bytes: &[u8]) -> bool
    ensures { result ≡ list_all (λ b. not (b == 0)) bytes.now }
{
    bytes.iter().all(|byte| *byte != 0)
}

/// Whether a text is a path: at least one byte, and none of them NUL.
pub(crate) fn is_a_path(text: &[u8]) -> bool
    ensures { result ≡ is_path text.now }
{
    1 <= text.len() && is_without_nul(text)
}

/// The path of the record, if there is one.
pub(crate) fn record(alloc: Global, table: &Table) -> Result<Option<String>, Problem>
    ensures ok { IfOk result (λ s. text_in (value_at Key.Record (table_view table.now))
        ≡ Some (option_map string_bytes s)) }
    ensures path { IfOk result (λ s. IfSome s (λ path. IsTrue (is_path (string_bytes path)))) }
    ensures err { IfErr result (IsProblem (table_view table.now)) }
{
    let path = match text(table, Key::Record)? {
        Some(path) => path,
        None => return Ok(None),
    };
    if !is_a_path(path.as_bytes()) {
        return Err(Problem::Refused(Key::Record));
    }
    Ok(Some(String::from_str(alloc, path)?))
}
