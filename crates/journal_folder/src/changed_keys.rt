//! The keys of a configuration whose values differ from those of a store.
ghost use Rattle.std.specs.Prelude.{◌≡◌, ◌≢◌, ◌↔◌, ◌<◌, [], false, IfOk, IsTrue, length};
ghost use Rattle.raft_log.specs.Peers.{IsGroupSize};
ghost use Rattle.store_setup.specs.Changes.{IsOf, changed_keys};

use crate::store::size_of;
use bouncer_config::{Config, Key};
use std::alloc::{AllocError, Global};
use std::fmt;
use store_setup::{StoreSetup, changed};

/// The keys of a configuration whose values differ from those of a store.
#[derive(Debug, Drop)]
pub struct ChangedKeys {
    keys: Vec<Key>,
}

impl ChangedKeys {
    /// The keys whose values differ between a store and a configuration.
    pub fn of(alloc: Global, store: &StoreSetup, config: &Config) -> Result<ChangedKeys, AllocError>
        requires { IsGroupSize (length config.now.listen.items) }
        ensures keys { IfOk result (λ changed. changed.keys.items
            ≡ changed_keys store.now config.now.setup (length config.now.listen.items)) }
        ensures same { IfOk result (λ changed. changed.keys.items ≡ []
            ↔ IsOf store.now config.now.setup (length config.now.listen.items)) }
    {
        let keys = changed(alloc, store, &config.setup, size_of(config))?;
        Ok(ChangedKeys { keys })
    }

    /// Whether there are none.
    pub fn is_none(&self) -> bool
        ensures none { IsTrue result → self.now.keys.items ≡ [] }
        ensures some { result ≡ false → self.now.keys.items ≢ [] }
    {
        match self.keys.as_slice() {
            [] => true,
            _ => false,
        }
    }

    pub fn keys(&self) -> &[Key]
        ensures { result.now ≡ self.now.keys.items }
    {
        self.keys.as_slice()
    }
}

/// The words of the keys, as `nick, channels and listen`.
impl fmt::Display for ChangedKeys {
    fn fmt<W: fmt::Write>(&self, f: &mut fmt::Formatter<W>) -> fmt::Result {
        for index in 0..self.keys.len() {
            f.write_str(joint(index, self.keys.len()))?;
            f.write_str(self.keys[index].text())?;
        }
        Ok(())
    }
}

/// What is put before the word at this index of this many.
fn joint(index: usize, count: usize) -> &'static str
    requires { index < count }
{
    if index == 0 {
        ""
    } else if index + 1 < count {
        ", "
    } else {
        " and "
    }
}
