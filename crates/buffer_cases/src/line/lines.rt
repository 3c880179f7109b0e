//! What lines say, by examples.
use crate::made::{filled_to, is_shown, name, text};
use irc_line::{Line, LineFault, Name, Text, write_parts};
use std::alloc::{AllocError, Global};
use std::test::Fail;

/// Contents, and the spelling of the line of each.
const SPELLED: &[(&str, &str)] = &[
    ("PING  b", "PING b"),
    ("  ping b  ", "PING b"),
    (":s 001 me :Hello", ":s 001 me Hello"),
    (":s  001  me  :Hello  you", ":s 001 me :Hello  you"),
    ("PRIVMSG #x :", "PRIVMSG #x :"),
    ("privmsg #x word", "PRIVMSG #x :word"),
    (
        "USER guest 0 * :Ronnie Reagan",
        "USER guest 0 * :Ronnie Reagan",
    ),
    (
        ":Angel!wings@irc.org PRIVMSG Wiz :Are you receiving this message ?",
        ":Angel!wings@irc.org PRIVMSG Wiz :Are you receiving this message ?",
    ),
    ("MODE #Finnish +o Kilroy", "MODE #Finnish +o Kilroy"),
];

/// The line of a content.
fn parsed(alloc: Global, content: &[u8]) -> Result<Line, LineFault> {
    Line::parse(alloc, content)
}

/// Whether a line is spelled so.
fn has_spelling(alloc: Global, line: &Line, want: &[u8]) -> Result<bool, AllocError> {
    let mut out = Vec::new(alloc);
    line.write_to(&mut out)?;
    Ok(out.as_slice() == want)
}

/// Whether the line of a content is spelled so.
fn is_spelled(alloc: Global, content: &str, want: &str) -> Result<bool, LineFault> {
    let line = parsed(alloc, content.as_bytes())?;
    Ok(has_spelling(alloc, &line, want.as_bytes())?)
}

/// Bytes, and whether they are the spelling of a line.
const SPELLINGS: &[(&str, bool)] = &[
    ("PING b", true),
    (":s 001 me Hello", true),
    ("PRIVMSG #x :", true),
    ("PRIVMSG #x :word", true),
    ("PING", true),
    ("ping b", false),
    ("PING  b", false),
    ("PING b ", false),
    (" PING b", false),
    (":s  PING b", false),
    ("PING :b", false),
    ("PRIVMSG #x word", false),
    ("12 b", false),
    ("", false),
];

/// The line whose spelling this is, if it is of one.
fn read(alloc: Global, bytes: &[u8]) -> Result<Option<Line>, AllocError> {
    Line::from_spelling(alloc, bytes)
}

/// Whether these bytes are the spelling of a line, which is spelled so, or of none, as is wanted.
fn is_read(alloc: Global, bytes: &str, is_spelling: bool) -> Result<bool, AllocError> {
    match read(alloc, bytes.as_bytes())? {
        Some(line) => Ok(is_spelling && has_spelling(alloc, &line, bytes.as_bytes())?),
        None => Ok(!is_spelling),
    }
}

#[test]
fn a_line_is_spelled_in_one_way(rt: HostRuntime) -> Result<(), Fail> {
    for (content, want) in SPELLED {
        assert!(rt; is_spelled(rt.alloc(), content, want)?);
    }
    for (bytes, is_spelling) in SPELLINGS {
        assert!(rt; is_read(rt.alloc(), bytes, *is_spelling)?);
    }
    Ok(())
}

/// Contents of no line, and the first fault of each.
const FAULTS: &[(&str, LineFault)] = &[
    ("PING\0b", LineFault::BadByte(4)),
    ("\0 \n", LineFault::BadByte(0)),
    ("   ", LineFault::NoCommand),
    ("", LineFault::NoCommand),
    (": PING", LineFault::NoCommand),
    ("12 b", LineFault::NoCommand),
    (
        "P 1 2 3 4 5 6 7 8 9 10 11 12 13 14 15 16",
        LineFault::TooManyParameters,
    ),
];

fn fault(alloc: Global, content: &[u8]) -> Option<LineFault> {
    parsed(alloc, content).err()
}

/// Whether a content of so many bytes, letters behind these, is too long.
fn is_too_long(alloc: Global, front: &[u8], len: usize) -> Result<bool, AllocError> {
    let content = filled_to(alloc, front, len, b"")?;
    Ok(fault(alloc, &content) == Some(LineFault::TooLong))
}

/// Whether a line of 511 bytes comes to this when it is cut behind other bytes.
fn is_cut(alloc: Global, line: &Line, want: &[u8]) -> Result<bool, AllocError> {
    let mut out = Vec::from_slice(alloc, b"before ")?;
    line.write_cut(&mut out)?;
    Ok(line.spelled_len() == 511 && out.as_slice() == want)
}

/// The same of the line of a content.
fn is_content_cut(alloc: Global, content: &[u8], want: &[u8]) -> Result<bool, LineFault> {
    let line = parsed(alloc, content)?;
    Ok(is_cut(alloc, &line, want)?)
}

/// Whether the longest line is of 511 bytes, of which the last is cut off.
fn is_cut_by_one(alloc: Global) -> Result<bool, LineFault> {
    let content = filled_to(alloc, b"PRIVMSG #x :", 511, b"")?;
    let want = filled_to(alloc, b"before PRIVMSG #x :", 7 + 510, b"\r\n")?;
    is_content_cut(alloc, &content, &want)
}

/// Whether a line has this prefix.
fn has_prefix(line: &Line, want: &[u8]) -> bool {
    match line.prefix() {
        Some(prefix) => prefix == want,
        None => false,
    }
}

/// Whether a line has this command and two parameters, and none at the place 2.
fn has_two(line: &Line, command: &[u8], first: &[u8], second: &[u8]) -> bool {
    line.command() == command
        && line.parameter_count() == 2
        && line.parameter(0) == first
        && line.parameter(1) == second
        && line.parameter(2) == b"".as_slice()
}

/// Whether the copy of a line says the parts of that line.
fn has_parts(alloc: Global) -> Result<bool, LineFault> {
    let line = parsed(alloc, b":WiZ!jto@tolsun.oulu.fi nick Kilroy :")?;
    let copy = line.share()?;
    Ok(has_prefix(&copy, b"WiZ!jto@tolsun.oulu.fi") && has_two(&copy, b"NICK", b"Kilroy", b""))
}

/// A message to this name with this text.
fn message(alloc: Global, target: &Name, text: &Text) -> Result<Line, AllocError> {
    Line::message(alloc, Some(b"me!bouncer@local"), b"PRIVMSG", target, text)
}

/// Whether a message to this name with this text is spelled so.
fn is_message(alloc: Global, target: &[u8], bytes: &[u8], want: &[u8]) -> Result<bool, Fail> {
    let target = name(alloc, target)?;
    let text = text(alloc, bytes)?;
    let line = message(alloc, &target, &text)?;
    Ok(has_spelling(alloc, &line, want)?)
}

/// Whether a line is written from its parts.
fn is_written(alloc: Global) -> Result<bool, AllocError> {
    let mut out = Vec::new(alloc);
    write_parts(&mut out, None, b"CAP", &[b"*".as_slice(), b"LS", b""])?;
    Ok(out.as_slice() == b"CAP * LS :".as_slice())
}

#[test]
fn a_line_says_its_parts_and_a_content_its_first_fault(rt: HostRuntime) -> Result<(), Fail> {
    let alloc = rt.alloc();
    assert!(rt; is_cut_by_one(alloc)?);
    assert!(rt; has_parts(alloc)?);
    assert!(rt; is_message(alloc, b"#x", b"hi", b":me!bouncer@local PRIVMSG #x :hi")?);
    assert!(rt; is_written(alloc)?);
    for (content, want) in FAULTS {
        assert!(rt; fault(alloc, content.as_bytes()) == Some(*want));
    }
    assert!(rt; is_too_long(alloc, b"PRIVMSG #x :", 512)?);
    assert!(rt; is_too_long(alloc, b"PRIVMSG #x ", 511)?);
    let bad = LineFault::BadByte(3);
    assert!(rt; is_shown(alloc, &bad, "a byte that no line may hold stands at 3")?);
    assert!(rt; is_shown(alloc, &LineFault::NoCommand, "a line has no command")?);
    Ok(())
}
