ghost use Rattle.std.specs.Prelude.{◌≡◌, IfOk, IfErr, IfSome, IsNone};
ghost use Rattle.toml.specs.Errors.{IsMemory};
ghost use Rattle.toml.specs.View.{table_view};
ghost use Rattle.bouncer_config.specs.Faults.{AreFaults};
ghost use Rattle.bouncer_config.specs.Reads.{AreFaultsOf, IsFault, Says};

use crate::config::Config;
use crate::config_fault::ConfigFault;
use crate::detail::{detail_of, detail_of_error};
use crate::gathering::all_faults;
use crate::lines::{line_at, line_of};
use crate::problem::Problem;
use std::alloc::Global;
use toml::Table;
use toml::de::Error;

/// The configuration of a TOML text. A fault has the first problem, in the order of
/// [`Config::from_table`], and the line of its key, of the element of its list, or of what is no
/// TOML; and all that is wrong with the table, unless memory runs out.
pub fn parse_config(alloc: Global, text: &[u8]) -> Result<Config, ConfigFault>
    ensures ok { IfOk result (Says text.now) }
    ensures err { IfErr result (λ fault. IsFault text.now fault.problem) }
    ensures all { IfErr result (λ fault. IfSome fault.all (λ all. AreFaultsOf text.now all.items)) }
    ensures alone { IfErr result (λ fault. fault.problem ≡ Problem.Memory → IsNone fault.all) }
{
    let table = match toml::table_from_slice(alloc, text) {
        Ok(table) => table,
        Err(error) => return Err(not_toml(alloc, text, &error)),
    };
    match Config::from_table(alloc, &table) {
        Ok(config) => Ok(config),
        Err(problem) => Err(table_fault(alloc, text, &table, problem)),
    }
}

/// The fault of a text whose table has this problem first.
fn table_fault(alloc: Global, text: &[u8], table: &Table, problem: Problem) -> ConfigFault
    ensures problem { result.problem ≡ problem }
    ensures all { IfSome result.all (λ all. AreFaults (table_view table.now) all.items) }
    ensures alone { problem ≡ Problem.Memory → IsNone result.all }
{
    let all = match &problem {
        Problem::Memory => None,
        _ => all_faults(alloc, text, table).ok(),
    };
    ConfigFault {
        line: line_of(text, table, &problem),
        detail: detail_of(alloc, table, &problem),
        problem,
        all,
    }
}

/// The fault of a text that is no TOML, or of running out of memory.
fn not_toml(alloc: Global, text: &[u8], error: &Error) -> ConfigFault
    ensures memory { IsMemory error.now → result.problem ≡ Problem.Memory }
    ensures toml { ¬ IsMemory error.now → result.problem ≡ Problem.NotToml }
    ensures alone { IsNone result.all }
{
    match error.span() {
        Some(span) => ConfigFault {
            line: Some(line_at(text, span.start)),
            problem: Problem::NotToml,
            detail: detail_of_error(alloc, text, error, &span),
            all: None,
        },
        None => ConfigFault {
            line: None,
            problem: Problem::Memory,
            detail: None,
            all: None,
        },
    }
}
