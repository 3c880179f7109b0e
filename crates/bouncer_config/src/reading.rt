//! Single values of a table, each read by its key.
ghost use Rattle.std.specs.Prelude.{◌≡◌, ◌≢◌, ◌≤◌, Some, IfOk, IfErr, IfSome, IsTrue, option_map};
ghost use Rattle.toml.specs.View.{view, table_view};
ghost use Rattle.bouncer_config.specs.KeyTexts.{kind_of, limits_of};
ghost use Rattle.bouncer_config.specs.Found.{above_least, input_end_in, level_in, number_in, offset_in, text_at, text_in, truth_in, value_at, within};
ghost use Rattle.bouncer_config.specs.Wrong.{IsProblem, is_needed};

use crate::input_end::InputEnd;
use crate::key::{Key, Kind, Limits};
use crate::log_level::LogLevel;
use crate::problem::Problem;
use buffer_lines::Offset;
use toml::{Table, Value};

/// The value of a key, if the table has one.
pub(crate) fn find(table: &Table, key: Key) -> Option<&Value>
    ensures { option_map (λ v. view v.now) result ≡ value_at key (table_view table.now) }
{
    table.get(key.text())
}

/// The value of a key that every configuration needs.
pub(crate) fn needed(table: &Table, key: Key) -> Result<&Value, Problem>
    requires { IsTrue (is_needed key) }
    ensures ok { IfOk result (λ v. value_at key (table_view table.now) ≡ Some (view v.now)) }
    ensures err { IfErr result (IsProblem (table_view table.now)) }
{
    match find(table, key) {
        Some(value) => Ok(value),
        None => Err(Problem::Missing(key)),
    }
}

/// The text of a key that every configuration needs.
pub(crate) fn needed_text(table: &Table, key: Key) -> Result<&str, Problem>
    requires needed { IsTrue (is_needed key) }
    requires kind { kind_of key ≡ Kind.Text }
    ensures ok { IfOk result (λ s. text_at key (table_view table.now) ≡ Some s.now) }
    ensures err { IfErr result (IsProblem (table_view table.now)) }
{
    match needed(table, key)?.as_str() {
        Some(text) => Ok(text),
        None => Err(Problem::Kind(key)),
    }
}

/// The text of a key, if there is one.
pub(crate) fn text(table: &Table, key: Key) -> Result<Option<&str>, Problem>
    requires { kind_of key ≡ Kind.Text }
    ensures ok { IfOk result (λ s. text_in (value_at key (table_view table.now))
        ≡ Some (option_map (λ t. t.now) s)) }
    ensures err { IfErr result (IsProblem (table_view table.now)) }
{
    match find(table, key) {
        Some(value) => match value.as_str() {
            Some(text) => Ok(Some(text)),
            None => Err(Problem::Kind(key)),
        },
        None => Ok(None),
    }
}

/// This number, if it is within limits.
pub(crate) fn number_within(number: i64, limits: Limits) -> Option<u32>
    ensures value { result ≡ within limits number }
    ensures most { IfSome result (λ n. n ≤ limits.most) }
{
    match u32::try_from(number) {
        Ok(number) if limits.least <= number && number <= limits.most => Some(number),
        _ => None,
    }
}

/// The number of a key, or its default.
pub(crate) fn number(table: &Table, key: Key) -> Result<u32, Problem>
    requires kind { kind_of key ≡ Kind.Number }
    requires natural { key ≢ Key.OffsetMinutes }
    requires usual { (limits_of key).usual ≤ (limits_of key).most }
    ensures most { IfOk result (λ n. n ≤ (limits_of key).most) }
    ensures ok { IfOk result (λ n.
        number_in (limits_of key) (value_at key (table_view table.now)) ≡ Some n) }
    ensures err { IfErr result (IsProblem (table_view table.now)) }
{
    match find(table, key) {
        Some(value) => match value.as_integer() {
            Some(number) => match number_within(number, key.limits()) {
                Some(number) => Ok(number),
                None => Err(Problem::Refused(key)),
            },
            None => Err(Problem::Kind(key)),
        },
        None => Ok(key.limits().usual),
    }
}

/// The truth value of a key, which is on by default.
pub(crate) fn truth(table: &Table, key: Key) -> Result<bool, Problem>
    requires { kind_of key ≡ Kind.Truth }
    ensures ok { IfOk result (λ b. truth_in (value_at key (table_view table.now)) ≡ Some b) }
    ensures err { IfErr result (IsProblem (table_view table.now)) }
{
    match find(table, key) {
        Some(value) => match value.as_bool() {
            Some(truth) => Ok(truth),
            None => Err(Problem::Kind(key)),
        },
        None => Ok(true),
    }
}

/// The offset of this many minutes, if there is one.
pub(crate) fn offset_of(minutes: i64) -> Option<Offset>
    ensures { result ≡ above_least minutes }
{
    if minutes < -1439 || minutes > 1439 {
        return None;
    }
    Some(Offset::new((minutes + 1439) as u16))
}

/// The offset of the clock, none by default.
pub(crate) fn offset(table: &Table) -> Result<Offset, Problem>
    ensures ok { IfOk result (λ n.
        offset_in (value_at Key.OffsetMinutes (table_view table.now)) ≡ Some n) }
    ensures err { IfErr result (IsProblem (table_view table.now)) }
{
    match find(table, Key::OffsetMinutes) {
        Some(value) => match value.as_integer() {
            Some(minutes) => match offset_of(minutes) {
                Some(offset) => Ok(offset),
                None => Err(Problem::Refused(Key::OffsetMinutes)),
            },
            None => Err(Problem::Kind(Key::OffsetMinutes)),
        },
        None => Ok(Offset::default()),
    }
}

/// How much is logged on standard error, `info` by default.
pub(crate) fn log(table: &Table) -> Result<LogLevel, Problem>
    ensures ok { IfOk result (λ l. level_in (value_at Key.Log (table_view table.now)) ≡ Some l) }
    ensures err { IfErr result (IsProblem (table_view table.now)) }
{
    match text(table, Key::Log)? {
        Some(text) => match LogLevel::from_text(text.as_bytes()) {
            Some(level) => Ok(level),
            None => Err(Problem::Refused(Key::Log)),
        },
        None => Ok(LogLevel::Info),
    }
}

/// What the end of standard input does, which is to stop the bouncer by default.
pub(crate) fn input_end(table: &Table) -> Result<InputEnd, Problem>
    ensures ok { IfOk result (λ i.
        input_end_in (value_at Key.Input (table_view table.now)) ≡ Some i) }
    ensures err { IfErr result (IsProblem (table_view table.now)) }
{
    match text(table, Key::Input)? {
        Some(text) => match InputEnd::from_text(text.as_bytes()) {
            Some(input_end) => Ok(input_end),
            None => Err(Problem::Refused(Key::Input)),
        },
        None => Ok(InputEnd::Stops),
    }
}
