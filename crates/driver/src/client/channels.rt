//! The channels that a client has open.
ghost use Rattle.std.specs.Prelude.{◌≡◌, [], OnErr, OnOk};
ghost use Rattle.std.specs.List.{list_any};
ghost use Rattle.irc_line.specs.Names.{same_name};
ghost use Rattle.driver.specs.Opening.{closed, opened};

use irc_line::{Name, is_a_name, is_same_name};
use std::alloc::{AllocError, Global};
use std::marker::Model;

/// The channels that a client has open: those for which the last thing it was shown of its own coming and going was a
/// JOIN.
///
/// A clause sees their names, each as it was shown first.
#[derive(Drop)]
pub struct Channels {
    alloc: Global,
    names: Vec<Name>,
}

impl Model for Channels {
    ghost use Rattle.std.specs.Prelude.{ℕ, List};

    ghost Value = { List (List ℕ) };

    ghost view = { λ c. c.names.items };
}

impl Channels {
    /// No channels.
    pub fn new(alloc: Global) -> Channels
        ensures { result ≡ [] }
    {
        Channels {
            alloc,
            names: Vec::new(alloc),
        }
    }

    /// Whether a channel of this name is open.
    pub fn has(&self, name: &[u8]) -> bool
        ensures { result ≡ list_any (same_name name.now) self.now }
    {
        self.names
            .iter()
            .any(|open| is_same_name(name, open.as_bytes()))
    }

    /// Opens the channel of this name.
    pub fn add(&mut self, name: &[u8]) -> Result<(), AllocError>
        ensures opened { OnOk result (self.new ≡ opened name.now self.old) }
        ensures kept { OnErr result (self.new ≡ self.old) }
    {
        if self.has(name) || !is_a_name(name) {
            return Ok(());
        }
        let bytes = Vec::from_slice(self.alloc, name)?;
        if let Some(name) = Name::from_bytes(bytes) {
            self.names.push(name)?;
        }
        Ok(())
    }

    /// Closes the channel of this name.
    pub fn close(&mut self, name: &[u8])
        ensures { self.new ≡ closed name.now self.old }
    {
        self.names
            .retain(|open| !is_same_name(name, open.as_bytes()));
    }
}
