//! What a client is shown about who joins a channel, and about its own parting.
ghost use Rattle.std.specs.Prelude.{◌≡◌, option_map};
ghost use Rattle.driver.specs.Opening.{behind_space, channel_joined, channel_left, closed_by, first_in, is_join, is_kick, is_part};
ghost use Rattle.driver.specs.Opening.{joined_as, nick_joining, opened_by, second_in, source_in, upto};

use bouncer_tower::TowerEffect;
use buffer_commands::Effect;
use irc_line::{is_same, is_same_name};
use request_once::Answer;
use session_fence::FenceEffect;
use upstream_claim::ClaimsEffect;

/// The channel that an effect opens for its client, and the channel that it closes. It opens one if it shows that
/// someone joins it; it closes one if it shows that the client, who has this nick, parts from it or is kicked.
pub fn moved_by<'a>(effect: &'a TowerEffect, nick: &[u8]) -> (Option<&'a [u8]>, Option<&'a [u8]>)
    ensures opened { option_map (λ name. name.now) result.0 ≡ opened_by effect.now }
    ensures closed { option_map (λ name. name.now) result.1 ≡ closed_by nick.now effect.now }
{
    match effect {
        Answer::Effect(ClaimsEffect::Inner(FenceEffect::Inner(Effect::Show(_, shown)))) => {
            moved_in(shown.spelling(), nick)
        }
        _ => (None, None),
    }
}

/// The channels that a line opens and closes in this way. For nearly all lines the byte after their first space shows
/// that they do neither.
fn moved_in<'a>(shown: &'a [u8], nick: &[u8]) -> (Option<&'a [u8]>, Option<&'a [u8]>)
    ensures opened { option_map (λ name. name.now) result.0 ≡ channel_joined shown.now }
    ensures closed { option_map (λ name. name.now) result.1 ≡ channel_left nick.now shown.now }
{
    let [b':', line @ ..] = shown else {
        return (None, None);
    };
    let rest = behind_space(line);
    if let [b'J', ..] = rest {
        return (channel_joined(shown), None);
    }
    match rest {
        [b'P', b'A', ..] | [b'K', ..] => (None, channel_left(shown, nick)),
        _ => (None, None),
    }
}

/// The channel of a JOIN with a prefix.
fn channel_joined(shown: &[u8]) -> Option<&[u8]>
    ensures { option_map (λ name. name.now) result ≡ channel_joined shown.now }
{
    if !is_join(shown) {
        return None;
    }
    match shown {
        [_, line @ ..] => Some(first_in(line)),
        [] => None,
    }
}

/// The channel of a PART by this nick, or of a KICK of it.
fn channel_left<'a>(shown: &'a [u8], nick: &[u8]) -> Option<&'a [u8]>
    ensures { option_map (λ name. name.now) result ≡ channel_left nick.now shown.now }
{
    match shown {
        [b':', line @ ..] => {
            if is_part(line, nick) || is_kick(line, nick) {
                Some(first_in(line))
            } else {
                None
            }
        }
        _ => None,
    }
}

/// Whether a line, without the colon of its prefix, is a PART by this nick.
fn is_part(line: &[u8], nick: &[u8]) -> bool
    ensures { result ≡ is_part nick.now line.now }
{
    let command = upto(behind_space(line), b' ');
    is_same(command, b"PART") && is_same_name(source_in(line), nick)
}

/// Whether it is a KICK of this nick.
fn is_kick(line: &[u8], nick: &[u8]) -> bool
    ensures { result ≡ is_kick nick.now line.now }
{
    let command = upto(behind_space(line), b' ');
    is_same(command, b"KICK") && is_same_name(second_in(line), nick)
}

/// The nick in its prefix.
fn source_in(line: &[u8]) -> &[u8]
    ensures { result.now ≡ source_in line.now }
{
    upto(upto(line, b' '), b'!')
}

/// Its first parameter.
fn first_in(line: &[u8]) -> &[u8]
    ensures { result.now ≡ first_in line.now }
{
    upto(behind_space(behind_space(line)), b' ')
}

/// Its second parameter, up to a space.
fn second_in(line: &[u8]) -> &[u8]
    ensures { result.now ≡ second_in line.now }
{
    upto(behind_space(behind_space(behind_space(line))), b' ')
}

/// The nick by which an effect shows a client that someone joins a channel, if it does.
pub fn joined_as(effect: &TowerEffect) -> Option<&[u8]>
    ensures { option_map (λ nick. nick.now) result ≡ joined_as effect.now }
{
    match effect {
        Answer::Effect(ClaimsEffect::Inner(FenceEffect::Inner(Effect::Show(_, shown)))) => {
            nick_joining(shown.spelling())
        }
        _ => None,
    }
}

/// The nick that joins by a line with a prefix, if the line is a JOIN.
fn nick_joining(shown: &[u8]) -> Option<&[u8]>
    ensures { option_map (λ nick. nick.now) result ≡ nick_joining shown.now }
{
    if !is_join(shown) {
        return None;
    }
    match shown {
        [_, line @ ..] => Some(source_in(line)),
        [] => None,
    }
}

/// The bytes before the first occurrence of a byte; all of them if it does not occur.
fn upto(bytes: &[u8], mark: u8) -> &[u8]
    ensures { result.now ≡ upto mark bytes.now }
{
    for i in 0..bytes.len() {
        if bytes[i] == mark {
            return &bytes[..i];
        }
    }
    bytes
}

/// Whether a line with a prefix is a JOIN.
fn is_join(shown: &[u8]) -> bool
    ensures { result ≡ is_join shown.now }
{
    match shown {
        [b':', line @ ..] => behind_space(line).starts_with(b"JOIN "),
        _ => false,
    }
}

/// The bytes after the first space, if there is one.
pub fn behind_space(bytes: &[u8]) -> &[u8]
    ensures { result.now ≡ behind_space bytes.now }
{
    let mut rest = bytes;
    while let [byte, more @ ..] = rest {
        if *byte == b' ' {
            return more;
        }
        rest = more;
    }
    rest
}
