//! What a leader keeps about its sessions.
ghost use Rattle.std.specs.Prelude.{◌≡◌};
ghost use Rattle.led_lists.specs.Led.{new_leader};

use raft_log::Live;
use wire_bytes::Number;

/// The live session of a leader, if any, and how many it opened.
#[derive(Clone, Copy)]
pub struct Leading {
    pub live: Option<Live>,
    pub attempts: Number,
}

impl Leading {
    /// A new leader has no session, and has opened none.
    pub fn new() -> Leading
        ensures { result ≡ new_leader }
    {
        Leading {
            live: None,
            attempts: Number::new(0),
        }
    }
}
