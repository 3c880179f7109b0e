//! What the next start will do with the store in a folder, as `bouncer check` reports it.
ghost use Rattle.std.specs.Prelude.{◌≡◌, IfOk};

use crate::changed_keys::ChangedKeys;
use crate::fault::RenewFault;
use crate::loss::LostJournals;
use crate::naming::{names_of, texts_of};
use bouncer_tower::TowerBody;
use stable_store::Saved;
use std::alloc::Global;
use std::fmt;
use store_setup::StoreSetup;
use wire_bytes::Number;

/// What the next start will do with a store.
#[derive(Drop)]
pub enum Coming {
    /// There is none: a new one is made.
    New,
    /// It records nothing of its setup, and is assumed to have the configuration's.
    Describe,
    /// It goes on.
    Same,
    /// Its log will be renewed, since the values of these keys differ.
    Changed(ChangedKeys),
    /// Its log will be renewed, since these journals are lost. The values of these keys differ, if there are any.
    Lost(LostJournals, ChangedKeys),
    /// Its log will be renewed, since it is too long. It has this many entries.
    Long(Number),
    /// Its log has more entries than it should have, and can't be renewed. It goes on as it is.
    StaysLong(RenewFault),
}

/// What the next start will do with a store, and the names of its clients.
#[derive(Drop)]
pub struct Foretold {
    pub coming: Coming,
    pub names: Vec<String>,
}

impl Foretold {
    /// There is no store.
    pub fn of_none(alloc: Global) -> Foretold
        ensures { result.coming ≡ Coming.New }
    {
        Foretold {
            coming: Coming::New,
            names: Vec::new(alloc),
        }
    }

    /// What will be done with a store, with the names in the log of its group that counts.
    pub fn of(
        alloc: Global,
        coming: Coming,
        store: &StoreSetup,
        group: &[Saved<TowerBody>],
    ) -> Result<Foretold, RenewFault>
        ensures { IfOk result (λ told. told.coming ≡ coming) }
    {
        let names = names_of(alloc, &store.setup, group)?;
        Ok(Foretold {
            coming,
            names: texts_of(alloc, &names)?,
        })
    }
}

impl fmt::Display for Foretold {
    fn fmt<W: fmt::Write>(&self, f: &mut fmt::Formatter<W>) -> fmt::Result {
        match &self.coming {
            Coming::New => f.write_str("store: new")?,
            Coming::Describe => f.write_str(
                "store: of an older version, taken to be of this setup",
            )?,
            Coming::Same => f.write_str("store: the same setup")?,
            Coming::Changed(keys) => {
                write!(f, "store: the log will be renewed, since {keys} changed")?
            }
            Coming::Lost(lost, keys) => {
                write!(f, "store: the log will be renewed, since {lost}")?;
                if !keys.is_none() {
                    write!(f, ", and since {keys} changed")?;
                }
            }
            Coming::Long(entries) => write!(
                f,
                "store: the log will be renewed, since it has {entries} entries"
            )?,
            Coming::StaysLong(fault) => {
                write!(f, "store: the log is long, and stays so: {fault}")?
            }
        }
        f.write_str("\nnames of clients: ")?;
        if self.names.is_empty() {
            return f.write_str("none");
        }
        for index in 0..self.names.len() {
            if index > 0 {
                f.write_str(", ")?;
            }
            f.write_str(self.names[index].as_str())?;
        }
        Ok(())
    }
}
