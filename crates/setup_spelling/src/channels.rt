ghost use Rattle.std.specs.Prelude.{◌≡◌, ◌≢◌, ◌≤◌, Err, IfErr, IfOk, None, Ok, OnErr, length, vec_capacity};
ghost use Rattle.wire_bytes.specs.Contents.{sized};
ghost use Rattle.irc_line.specs.Lines.{LacksRoom};
ghost use Rattle.wire_bytes.specs.Fields.{appended, behind};
ghost use Rattle.setup_spelling.specs.Spelling.{channel_after, channels_after, is_after, last_of};
ghost use Rattle.setup_spelling.specs.Spelling.{spelled_channels, spelled_names};
ghost use Rattle.buffer_commands.specs.Settings.{channel_limit};

use buffer_commands::MOST_CHANNELS;
use irc_line::{Name, is_name_below};
use std::alloc::{AllocError, Global};
use std::marker::Model;
use wire_bytes::{Copied, Wire, WireFault, copied_all, take_behind, take_byte, undo};

/// At most 100 names of channels, each before the next one in the order of folded names.
#[derive(Drop)]
pub struct Channels {
    names: Vec<Name>,
}

impl Model for Channels {
    ghost use Rattle.std.specs.Prelude.{ℕ, List, IsTrue};
    ghost use Rattle.buffer_commands.specs.Settings.{are_channels};

    ghost Value = { List (List ℕ) };

    ghost view = { λ c. c.names.items };

    ghost invariant = { λ c. IsTrue (are_channels c.names.items) };
}

impl Channels {
    ghost use Rattle.std.specs.Prelude.{IsTrue};
    ghost use Rattle.buffer_commands.specs.Settings.{are_channels};

    pub fn into_names(self) -> Vec<Name>
        ensures names { result.items ≡ self }
        ensures limits { IsTrue (are_channels self) }
    {
        self.names
    }
}

impl Copied for Channels {
    fn copy(&self, alloc: Global) -> Result<Self, AllocError> {
        let names = copied_all(alloc, &self.names)?;
        Ok(Channels { names })
    }
}

/// Their number in one byte, and each name in turn.
impl Wire for Channels {
    ghost use Rattle.std.specs.Prelude.{IsTrue};
    ghost use Rattle.buffer_commands.specs.Settings.{are_channels};
    ghost use Rattle.wire_bytes.specs.Fields.{byte_within};
    ghost use Rattle.wire_bytes.specs.Wants.{once_whole};
    ghost use Rattle.setup_spelling.specs.Spelling.{channels, spelled_channels};
    ghost use Rattle.setup_spelling.specs.SetupCodec.{channels_is_codec};
    ghost use Rattle.buffer_commands.specs.Settings.{channel_limit};

    ghost spelled = { spelled_channels };

    ghost fits = { λ cs. IsTrue (are_channels cs) };

    ghost taken = { channels };

    ghost wants = { once_whole (byte_within 0 channel_limit) };

    fn put(&self, out: &mut Vec<u8>) -> Result<(), AllocError> {
        put_channels(out, &self.names)
    }

    fn take(alloc: Global, input: &[u8]) -> Result<(Self, usize), WireFault> {
        let (count, place) = take_byte(input, 0, MOST_CHANNELS as u8)?;
        let (names, end) = take_names(alloc, input, place, count)?;
        Ok((Channels { names }, end))
    }

    ghost is_codec = { channels_is_codec };
}

/// Appends the number of names and each in turn, or leaves the items as they were.
#[tactic(auto, unfolding(crate::specs::Spelling::spelled_channels))]
pub fn put_channels(out: &mut Vec<u8>, names: &[Name]) -> Result<(), AllocError>
    requires { length names.now ≤ channel_limit }
    ensures items { out.new.items ≡ appended result out.old.items (spelled_channels names.now) }
    ensures full { OnErr result (LacksRoom out.old (length (spelled_channels names.now))) }
    ensures capacity { vec_capacity out.old ≤ vec_capacity out.new }
{
    let len = out.len();
    out.push(names.len() as u8)?;
    let outcome = put_names(out, names);
    undo(out, len, outcome)
}

/// Appends each name in turn, or leaves the items as they were.
fn put_names(out: &mut Vec<u8>, names: &[Name]) -> Result<(), AllocError>
    ensures items { out.new.items ≡ appended result out.old.items (spelled_names names.now) }
    ensures full { OnErr result (LacksRoom out.old (length (spelled_names names.now))) }
    ensures capacity { vec_capacity out.old ≤ vec_capacity out.new }
{
    let len = out.len();
    for name in names {
        let outcome = put_name(out, name);
        if outcome.is_err() {
            out.truncate(len);
            return outcome;
        }
    }
    Ok(())
}

/// Appends a name, or leaves the items as they were.
pub fn put_name(out: &mut Vec<u8>, name: &Name) -> Result<(), AllocError>
    ensures items { out.new.items ≡ appended result out.old.items (sized name.now) }
    ensures full { OnErr result (LacksRoom out.old (length (sized name.now))) }
    ensures capacity { vec_capacity out.old ≤ vec_capacity out.new }
{
    name.as_bytes();
    name.put(out)
}

/// Reads this many names from a place of the input on, each of which comes after the one before it.
/// Places and the end are counted from the input's front.
fn take_names(
    alloc: Global,
    input: &[u8],
    place: usize,
    count: u8,
) -> Result<(Vec<Name>, usize), WireFault>
    requires { place ≤ length input.now }
    ensures ok { IfOk result (λ r. behind place (channels_after count None) input.now
        ≡ Ok (r.0.items, r.1)) }
    ensures err { IfErr result (λ e. e ≢ WireFault.Memory →
        behind place (channels_after count None) input.now ≡ Err e) }
{
    let mut names = Vec::new(alloc);
    let mut end = place;
    let mut left = count;
    while left > 0 {
        let (name, next) = take_channel(alloc, input, end, &names)?;
        names.push(name)?;
        end = next;
        left -= 1;
    }
    Ok((names, end))
}

/// Reads the name of a channel from a place of the input on; it must come after the last of these.
fn take_channel(
    alloc: Global,
    input: &[u8],
    place: usize,
    before: &[Name],
) -> Result<(Name, usize), WireFault>
    requires { place ≤ length input.now }
    ensures ok { IfOk result (λ r. behind place (channel_after (last_of before.now)) input.now
        ≡ Ok (r.0, r.1)) }
    ensures err { IfErr result (λ e. e ≢ WireFault.Memory →
        behind place (channel_after (last_of before.now)) input.now ≡ Err e) }
    ensures within { IfOk result (λ r. r.1 ≤ length input.now) }
{
    let (name, end) = take_behind::<Name>(alloc, input, place)?;
    // only rising names are read, since each setup has one spelling
    if name.is_channel() && comes_after(before, &name) {
        Ok((name, end))
    } else {
        Err(WireFault::Bad(place))
    }
}

/// Whether a name comes after the last of these, if there is one, in the order of folded names.
fn comes_after(before: &[Name], name: &Name) -> bool
    ensures { result ≡ is_after (last_of before.now) name.now }
{
    match before.last() {
        None => true,
        Some(last) => is_name_below(last.as_bytes(), name.as_bytes()),
    }
}
