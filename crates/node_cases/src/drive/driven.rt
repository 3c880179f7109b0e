//! Drivers to which stories are told.
use crate::drive::steps::take_step;
use crate::stories::fault::Fault;
use crate::stories::telling::Listener;
use driver::{Driver, Now, Settings};
use irc_line::Name;
use raft_log::GroupSize;
use std::alloc::Global;
use std::test::Fail;
use wire_bytes::Moment;

/// A driver with timeouts of 1000 ms, beats of 200 ms, and 2 lines at once, then one each 2 s.
#[derive(Drop)]
pub struct Driven {
    driver: Driver,
}

impl Listener for Driven {
    fn new(alloc: Global, _words: &[u8]) -> Result<Driven, Fail> {
        let nick = Name::from_bytes(Vec::from_slice(alloc, b"me")?).ok_or("no name")?;
        let settings = Settings {
            size: GroupSize::new(3).ok_or("no size")?,
            nick,
            password: Vec::from_slice(alloc, b"pw")?,
            upstream_password: None,
            on_connect: Vec::new(alloc),
            channel_keys: Vec::new(alloc),
            beat_ms: 200,
            timeout_ms: 1000,
            flood_burst: 2,
            flood_ms: 2000,
        };
        let at = Moment::new(1_700_000_000);
        let driver = Driver::new(alloc, settings, &Now { ms: 0, at });
        Ok(Driven { driver })
    }

    fn hear(&mut self, alloc: Global, line: &[u8], came: &mut Vec<u8>) -> Result<(), Fault> {
        take_step(alloc, &mut self.driver, line, came)
    }
}
