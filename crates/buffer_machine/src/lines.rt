//! The parts of a line that the buffers look at.
ghost use Rattle.std.specs.Prelude.{◌≡◌, ◌==◌, not};
ghost use Rattle.irc_line.specs.Lines.{parameter};
ghost use Rattle.std.specs.List.{take_while};
ghost use Rattle.buffer_machine.specs.Messages.{channel_of, has_command, is_by, is_message, is_new_nick, is_own, is_own_kick, is_plain_or_action, is_query_line, is_query_name, is_storable, names_first, names_second, source};

use irc_line::{Line, is_a_name, is_action, is_channel_name, is_same, is_same_name};

/// Whether a line has this command, which is in capital letters.
pub fn has_command(line: &Line, word: &[u8]) -> bool
    ensures { result ≡ has_command word.now line.now }
{
    is_same(line.command(), word)
}

/// Whether a line is a message to a channel or a nick (RFC 2812, 3.3).
pub fn is_message(line: &Line) -> bool
    ensures { result ≡ is_message line.now }
{
    has_command(line, b"PRIVMSG") || has_command(line, b"NOTICE")
}

/// Whether a line may be stored: a message with a target and a text; of CTCP messages only an ACTION.
pub fn may_store(line: &Line) -> bool
    ensures { result ≡ is_storable line.now }
{
    is_message(line) && line.parameter_count() == 2 && is_plain_text(line.parameter(1))
}

fn is_plain_text(text: &[u8]) -> bool
    ensures { result ≡ is_plain_or_action text.now }
{
    match text {
        [1, ..] => is_action(text),
        _ => true,
    }
}

/// The nick that a line came from: its prefix before the first `!`; no bytes where it has none.
pub fn source_of(line: &Line) -> &[u8]
    ensures { result.now ≡ source line.now }
{
    match line.prefix() {
        None => &[],
        Some(prefix) => before_mark(prefix),
    }
}

fn before_mark(prefix: &[u8]) -> &[u8]
    ensures { result.now ≡ take_while (λ b. not (b == 33)) prefix.now }
{
    for i in 0..prefix.len() {
        if prefix[i] == b'!' {
            return &prefix[..i];
        }
    }
    prefix
}

/// Whether a line is by this nick.
fn is_by(line: &Line, nick: &[u8]) -> bool
    ensures { result ≡ is_by nick.now line.now }
{
    line.prefix().is_some() && is_same_name(source_of(line), nick)
}

/// Whether a line is by this nick, has this command and names a channel.
pub fn is_own(line: &Line, word: &[u8], nick: &[u8]) -> bool
    ensures { result ≡ is_own word.now nick.now line.now }
{
    has_command(line, word) && is_by(line, nick) && is_channel_name(line.parameter(0))
}

/// Whether a line kicks this nick from a channel (RFC 2812, 3.2.8).
pub fn is_own_kick(line: &Line, nick: &[u8]) -> bool
    ensures { result ≡ is_own_kick nick.now line.now }
{
    has_command(line, b"KICK")
        && is_same_name(nick, line.parameter(1))
        && is_channel_name(line.parameter(0))
}

/// Whether a line gives this nick another: the server's welcome (RFC 2812, 5.1), or a change by the nick (3.1.2).
pub fn is_new_nick(line: &Line, nick: &[u8]) -> bool
    ensures { result ≡ is_new_nick nick.now line.now }
{
    (has_command(line, b"001") || (has_command(line, b"NICK") && is_by(line, nick)))
        && is_a_name(line.parameter(0))
}

/// Whether a line is a message to this nick from a sender who may have a query.
pub fn is_query_line(line: &Line, nick: &[u8]) -> bool
    ensures { result ≡ is_query_line nick.now line.now }
{
    has_command(line, b"PRIVMSG")
        && line.prefix().is_some()
        && is_same_name(nick, line.parameter(0))
        && is_query_name(source_of(line))
}

fn is_query_name(name: &[u8]) -> bool
    ensures { result ≡ is_query_name name.now }
{
    is_a_name(name) && !is_channel_name(name)
}

/// The channel that a line names, whatever that name is; no bytes where its command names none.
pub fn channel_of(line: &Line) -> &[u8]
    ensures { result.now ≡ channel_of line.now }
{
    if names_channel_first(line) {
        line.parameter(0)
    } else if names_channel_second(line) {
        line.parameter(1)
    } else if has_command(line, b"353") {
        line.parameter(2)
    } else {
        &[]
    }
}

fn names_channel_first(line: &Line) -> bool
    ensures { result ≡ names_first line.now }
{
    has_command(line, b"JOIN")
        || has_command(line, b"PART")
        || has_command(line, b"KICK")
        || has_command(line, b"TOPIC")
        || has_command(line, b"MODE")
        || has_command(line, b"PRIVMSG")
        || has_command(line, b"NOTICE")
}

fn names_channel_second(line: &Line) -> bool
    ensures { result ≡ names_second line.now }
{
    has_command(line, b"332") || has_command(line, b"366") || has_command(line, b"403")
}
