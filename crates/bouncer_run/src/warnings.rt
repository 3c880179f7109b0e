//! What is allowed in a configuration, but useful to nobody.
use crate::system::System;
use crate::telling::Telling;
use bouncer_config::Config;
use driver::Now;
use run_plan::Warning;
use std::fs::{self, File, Files};
use std::os::unix::fs::MetadataExt;
use std::rt::Runtime;

/// The mode bit that lets anybody read a file.
const ANYBODY: u32 = 0o004;

/// Says on standard error that anybody may read a configuration with passwords in it, if that is
/// so.
pub fn warn_of_readers<R: Runtime<File = File> + Files>(rt: &R, path: &str) {
    let Ok(metadata) = fs::metadata(rt, path) else {
        return;
    };
    if metadata.mode() & ANYBODY != 0 {
        let _ = eprintln!(rt; "{path}: anybody may read it, and the passwords in it: chmod 600 it");
    }
}

/// Each warning of a configuration is logged.
pub fn warn<R: System>(now: &Now, config: &Config, telling: &Telling<R>) {
    for warning in Warning::all() {
        if warning.is_of(config) {
            telling.tell_all(now, &warning);
        }
    }
}
