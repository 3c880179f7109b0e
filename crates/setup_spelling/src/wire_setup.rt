ghost use Rattle.std.specs.Prelude.{◌≡◌, ◌≤◌, OnErr, length, vec_capacity};
ghost use Rattle.irc_line.specs.Lines.{LacksRoom};
ghost use Rattle.wire_bytes.specs.Fields.{appended};
ghost use Rattle.setup_spelling.specs.Spelling.{settings, spelled_named, spelled_setup};

use crate::channels::{Channels, put_channels, put_name};
use crate::options::{OptionFields, fields_of, options_of};
use buffer_commands::Setup;
use irc_line::Name;
use std::alloc::{AllocError, Global};
use std::marker::Model;
use wire_bytes::{Copied, Wire, WireFault, undo};

/// A setup, which always has a spelling.
#[derive(Drop)]
pub struct WireSetup {
    setup: Setup,
}

impl Model for WireSetup {
    ghost use Rattle.buffer_commands.specs.Settings.{Settings};

    ghost Value = { Settings };

    ghost view = { λ s. s.setup };
}

impl WireSetup {
    ghost use Rattle.setup_spelling.specs.Spelling.{FitsSetup};

    pub fn new(setup: Setup) -> WireSetup
        ensures { result ≡ setup }
    {
        WireSetup { setup }
    }

    pub fn setup(&self) -> &Setup
        ensures { result.now ≡ self.now }
    {
        &self.setup
    }

    pub fn into_setup(self) -> Setup
        ensures { result ≡ self }
    {
        self.setup
    }

    /// Does nothing. A setup always has a spelling, since its type keeps its limits.
    pub fn fits(&self)
        ensures { FitsSetup self.now }
    {
        self.setup.nick().as_bytes();
        self.setup.channels();
        fields_of(&self.setup);
    }
}

impl Copied for WireSetup {
    fn copy(&self, alloc: Global) -> Result<Self, AllocError> {
        Ok(WireSetup {
            setup: self.setup.copy(alloc)?,
        })
    }
}

/// The nick; the number of channels in one byte, and their names; how many lines a channel and a query keep and how
/// many queries there are, in two, two and one bytes; whether playing empties channels and queries and whether many
/// clients may be attached; the offset's minutes and 1,439 in two bytes.
impl Wire for WireSetup {
    ghost use Rattle.wire_bytes.specs.Contents.{name};
    ghost use Rattle.wire_bytes.specs.Wants.{once_whole};
    ghost use Rattle.setup_spelling.specs.Spelling.{FitsSetup, setup_taken, spelled_setup};
    ghost use Rattle.setup_spelling.specs.SetupCodec.{setup_is_codec};

    ghost spelled = { spelled_setup };

    ghost fits = { FitsSetup };

    ghost taken = { setup_taken };

    ghost wants = { once_whole name };

    fn put(&self, out: &mut Vec<u8>) -> Result<(), AllocError> {
        put_setup(out, &self.setup)
    }

    fn take(alloc: Global, input: &[u8]) -> Result<(Self, usize), WireFault> {
        let (((nick, channels), fields), len) = <((Name, Channels), OptionFields)>::take(
            alloc, input,
        )?;
        let setup = made(nick, channels, fields);
        Ok((WireSetup { setup }, len))
    }

    ghost is_codec = { setup_is_codec };
}

/// The setup of these parts.
fn made(nick: Name, channels: Channels, fields: OptionFields) -> Setup
    ensures { result ≡ settings ((nick, channels), fields) }
{
    let options = options_of(fields);
    Setup::new(nick, channels.into_names(), options).unwrap()
}

/// Appends the spelling of a setup, or leaves the items as they were. It is refused only if room is missing and no
/// memory is left.
#[tactic(auto, unfolding(crate::specs::Spelling::spelled_setup))]
pub fn put_setup(out: &mut Vec<u8>, setup: &Setup) -> Result<(), AllocError>
    ensures items { out.new.items ≡ appended result out.old.items (spelled_setup setup.now) }
    ensures full { OnErr result (LacksRoom out.old (length (spelled_setup setup.now))) }
    ensures capacity { vec_capacity out.old ≤ vec_capacity out.new }
{
    let len = out.len();
    put_named(out, setup)?;
    let outcome = fields_of(setup).put(out);
    undo(out, len, outcome)
}

/// Appends the nick and the channels, or leaves the items as they were.
fn put_named(out: &mut Vec<u8>, setup: &Setup) -> Result<(), AllocError>
    ensures items { out.new.items ≡ appended result out.old.items (spelled_named setup.now) }
    ensures full { OnErr result (LacksRoom out.old (length (spelled_named setup.now))) }
    ensures capacity { vec_capacity out.old ≤ vec_capacity out.new }
{
    let len = out.len();
    put_name(out, setup.nick())?;
    let outcome = put_channels(out, setup.channels());
    undo(out, len, outcome)
}
