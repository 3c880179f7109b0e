//! What was done with a store when it was started, as it is logged.
use crate::folders::Folders;
use crate::system::System;
use bouncer_config::Config;
use journal_folder::{ChangedKeys, OldFolder, Renewed, Settled};
use raft_log::NodeId;
use std::io;

/// Says where an old folder is now, if one was moved.
pub fn tell_finished<R: System>(rt: &R, one: &OldFolder) {
    if let Some(old) = &one.old {
        let folder = one.folder.as_str();
        let _ = eprintln!(rt; "{folder}: the renewal is finished, and the old folder is {old}");
    }
}

/// Says on standard error what was done with a store that was there.
pub fn tell_settled<R: System>(rt: &R, config: &Config, settled: &Settled) {
    let folders = &Folders(config.store.as_slice());
    let _ = match settled {
        Settled::Made(_) | Settled::Same => Ok(()),
        Settled::Described(_) => {
            let first = config.folder(NodeId::new(1));
            eprintln!(rt;
                "{folders}: it said nothing of its setup: it is taken to be of this one, as {first}/setup says from now on"
            )
        }
        Settled::Changed(keys, renewed) => {
            let (before, old) = (renewed.before.value(), &renewed.old);
            eprintln!(rt;
                "{folders}: {keys} changed: the log of {before} entries was renewed, and {} {old}",
                folders.old()
            )
        }
        Settled::Lost(keys, renewed) => tell_lost(rt, folders, keys, renewed),
        Settled::Long(renewed) => {
            let (before, old) = (renewed.before.value(), &renewed.old);
            eprintln!(rt;
                "{folders}: the log had {before} entries: it was renewed, and {} {old}",
                folders.old()
            )
        }
        Settled::StaysLong(fault) => {
            let most = config.renew_at;
            eprintln!(rt; "{folders}: the log has more than {most} entries, and goes on: {fault}")
        }
    };
}

/// Says that the log of a store was renewed because journals of it were lost, and whether these
/// keys changed too.
fn tell_lost<R: System>(
    rt: &R,
    folders: &Folders<'_>,
    keys: &ChangedKeys,
    renewed: &Renewed,
) -> io::Result<()> {
    let (lost, before, old) = (&renewed.lost, renewed.before.value(), &renewed.old);
    if !keys.is_none() {
        eprintln!(rt; "{folders}: {keys} changed")?;
    }
    eprintln!(rt;
        "{folders}: {lost}: the log of {before} entries was renewed from the others, and {} {old}",
        folders.old()
    )
}
