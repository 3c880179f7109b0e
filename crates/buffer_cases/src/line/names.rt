//! Names and texts, by examples.
use crate::made::{filled_to, name, text};
use irc_line::{
    Name, Text, compare_names, fold_name, is_action, is_channel_name, is_name_below, is_same_name,
};
use std::alloc::{AllocError, Global};
use std::cmp::Ordering;
use std::test::Fail;

/// Two names, and whether the first stands before the second.
const ORDERED: &[(&str, &str, bool)] = &[
    ("#a", "#b", true),
    ("#b", "#a", false),
    ("#A", "#b", true),
    ("#a", "#B", true),
    ("#A", "#a", false),
    ("#x", "#x", false),
    ("#x", "#xy", true),
    ("#xy", "#x", false),
    ("&x", "#x", false),
    ("#x[", "#x{", false),
    ("#z", "#[", true),
];

#[test]
fn names_are_in_order(rt: HostRuntime) {
    for (a, b, want) in ORDERED {
        let (a, b) = (a.as_bytes(), b.as_bytes());
        let order = compare_names(a, b);
        assert!(rt; is_name_below(a, b) == *want && (order == Ordering::Less) == *want);
        assert!(rt; (order == Ordering::Equal) == is_same_name(a, b));
    }
    assert!(rt; is_same_name(b"#Ab[]\\~", b"#aB{}|^"));
    assert!(rt; !is_same_name(b"ab", b"a") && !is_same_name(b"a_", b"a^"));
    assert!(rt; is_action(b"\x01ACTION waves\x01") && !is_action(b"\x01ACTIONS"));
}

/// Bytes, whether they are a name, and whether they are a channel's.
const NAMES: &[(&str, bool, bool)] = &[
    ("me", true, false),
    ("*status", true, false),
    ("#x", true, true),
    ("&x", true, true),
    ("+x", true, true),
    ("!x", true, true),
    ("", false, false),
    (":x", false, false),
    ("#a b", false, false),
    ("#a,b", false, false),
    ("#a\x07", false, false),
];

fn is_name(alloc: Global, bytes: &[u8]) -> Result<bool, AllocError> {
    Ok(Name::from_bytes(Vec::from_slice(alloc, bytes)?).is_some())
}

/// Whether these bytes and letters behind them, so many in all, are a text.
fn is_text(alloc: Global, front: &[u8], len: usize) -> Result<bool, AllocError> {
    Ok(Text::from_bytes(filled_to(alloc, front, len, b"")?).is_some())
}

fn is_folded(alloc: Global, name: &[u8], want: &[u8]) -> Result<bool, AllocError> {
    Ok(fold_name(alloc, name)?.as_slice() == want)
}

/// Whether the copy of this name is a channel's.
fn is_copied_channel(alloc: Global, bytes: &[u8]) -> Result<bool, Fail> {
    Ok(name(alloc, bytes)?.copy(alloc)?.is_channel())
}

/// Whether the copy of the text of these bytes is of them.
fn is_copied_text(alloc: Global, bytes: &[u8]) -> Result<bool, Fail> {
    Ok(text(alloc, bytes)?.copy(alloc)?.as_bytes() == bytes)
}

#[test]
fn names_and_texts_have_limits(rt: HostRuntime) -> Result<(), Fail> {
    let alloc = rt.alloc();
    for (bytes, is_named, is_channel) in NAMES {
        let bytes = bytes.as_bytes();
        assert!(rt; is_name(alloc, bytes)? == *is_named);
        assert!(rt; is_channel_name(bytes) == *is_channel);
    }
    assert!(rt; is_text(alloc, b"a", 510)? && !is_text(alloc, b"a", 511)?);
    assert!(rt; !is_text(alloc, b"two\nlines", 9)?);
    assert!(rt; is_folded(alloc, b"A[]\\~Z@a{}|^_`", b"a{}|^z@a{}|^_`")?);
    assert!(rt; is_copied_channel(alloc, b"#x")? && is_copied_text(alloc, b"hi")?);
    Ok(())
}
