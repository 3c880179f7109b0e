//! Faults in words.
use crate::detail::{Detail, write_element};
use crate::key::{Key, Kind};
use crate::problem::Problem;
use std::fmt;

/// Writes the line of a problem, its key, what is wrong and what to do.
pub(crate) fn write_fault<W: fmt::Write>(
    f: &mut fmt::Formatter<W>,
    line: Option<usize>,
    problem: &Problem,
    detail: &Option<Detail>,
) -> fmt::Result {
    write_line(f, line)?;
    write_key(f, problem.key_text())?;
    match detail {
        Some(Detail::Element(element)) => write_element(f, problem, element.as_str()),
        Some(Detail::Expected(expected)) => write!(f, "{}: {expected}", reason(problem)),
        Some(Detail::Unquoted) => write!(
            f,
            "{}: invalid value: put a text in quotes",
            reason(problem)
        ),
        Some(Detail::Near(key)) => {
            write!(f, "{}: did you mean {}?", reason(problem), key.text())
        }
        None => f.write_str(reason(problem)),
    }
}

fn write_line<W: fmt::Write>(f: &mut fmt::Formatter<W>, line: Option<usize>) -> fmt::Result {
    match line {
        Some(line) => write!(f, "{line}: "),
        None => f.write_str(" "),
    }
}

fn write_key<W: fmt::Write>(f: &mut fmt::Formatter<W>, key: Option<&str>) -> fmt::Result {
    match key {
        Some(key) => write!(f, "{key}: "),
        None => Ok(()),
    }
}

/// What is wrong, without the key.
fn reason(problem: &Problem) -> &'static str {
    match problem {
        Problem::Memory => "out of memory",
        Problem::NotToml => "is no TOML",
        Problem::Unknown(_) => "is no key of a configuration",
        Problem::Missing(_) => "is missing",
        Problem::Kind(key) => kind_text(key.kind()),
        Problem::Refused(key) => rule_text(*key),
        Problem::ListenCount => "needs three, five or seven addresses",
        Problem::ListenTwice => "needs addresses that differ, and none of upstream's",
        Problem::StoreCount => "needs one folder, or one for each address of listen",
        Problem::StoreTwice => "needs folders that differ",
        Problem::ChannelCount => "takes at most 100 names",
        Problem::Setup(_) => "names a channel twice",
    }
}

/// What a key of this kind needs.
fn kind_text(kind: Kind) -> &'static str {
    match kind {
        Kind::Text => "needs a text",
        Kind::Texts => "needs a list of texts",
        Kind::Paths => "needs a text or a list of texts",
        Kind::Pairs => "needs a table, as { \"#channel\" = \"key\" }",
        Kind::Number => "needs a whole number",
        Kind::Truth => "needs true or false",
    }
}

/// What a key needs beyond its kind.
fn rule_text(key: Key) -> &'static str {
    match key {
        Key::Nick => "needs a name: 1 to 64 bytes without space or comma, the first no colon",
        Key::Password | Key::UpstreamPassword => "needs 1 to 64 bytes without space",
        Key::Upstream => {
            "needs an address 127.0.0.1:PORT: of a server elsewhere, or with TLS, that of a tunnel to it"
        }
        Key::Listen => "needs addresses 127.0.0.1:PORT",
        Key::Store | Key::Record => "needs a path",
        Key::Channels => "needs names of channels",
        Key::ChanBufferSize | Key::QueryBufferSize => "needs 0 to 500",
        Key::MaxQueryBuffers => "needs 1 to 50",
        Key::OffsetMinutes => "needs -1439 to 1439",
        Key::BeatMs => "needs 10 to 10000",
        Key::TimeoutMs => "needs 50 to 60000",
        Key::FloodBurst => "needs 1 to 100",
        Key::FloodMs => "needs 0 to 60000",
        Key::Log => "needs quiet, info or debug",
        Key::Input => "needs stop or ignore",
        Key::RenewAt => "needs 0 to 1000000",
        Key::ChannelKeys => "needs channels and their keys, as { \"#channel\" = \"key\" }",
        Key::OnConnect => "needs lines of IRC, as \"PRIVMSG NickServ :IDENTIFY secret\"",
        _ => "needs true or false",
    }
}
