use crate::passing::pass_items;
use crate::sending::send_first;
use crate::session::Session;
use crate::standing::Standing;
use crate::{Passed, UplinkInput};
use irc_line::{Name, Splitter, Text};
use std::alloc::{AllocError, Global};
use std::marker::Model;
use std::mem;

/// A connection to the upstream server, for the node that leads.
///
/// It is fed bytes as they come, however they are cut, and returns what they mean to the node and
/// what is to be written.
#[derive(Drop)]
pub struct Uplink {
    alloc: Global,
    splitter: Splitter,
    standing: Standing,
}

impl Model for Uplink {
    ghost use Rattle.uplink.specs.Calls.{Link};

    ghost Value = { Link };

    ghost view = { λ u. record { standing = u.standing; held = u.splitter } };
}

impl Uplink {
    ghost use Rattle.std.specs.Prelude.{◌≡◌, [], IfOk, OnErr};
    ghost use Rattle.std.specs.Option.{option_to_list};
    ghost use Rattle.irc_line.specs.Lines.{lent_prefix};
    ghost use Rattle.uplink.specs.Calls.{GoesOn, IsAfter, IsLive};
    ghost use Rattle.uplink.specs.Calls.Call.{Ended, Fed, Failed};
    ghost use Rattle.uplink.specs.Sending.{first_bytes};

    /// An uplink, and the bytes that are to be written first: PASS if there is a password, NICK and
    /// USER (RFC 2812, 3.1), each whole, of any length.
    pub fn new(
        alloc: Global,
        nick: Name,
        password: Option<&Text>,
    ) -> Result<(Uplink, Vec<u8>), AllocError>
        ensures after { IfOk result (λ t. IsAfter t.0 nick []) }
        ensures bytes { IfOk result (λ t.
            t.1.items ≡ first_bytes nick (lent_prefix password.entry)) }
    {
        let mut bytes = Vec::new(alloc);
        send_first(&mut bytes, &nick, password)?;
        let uplink = Uplink {
            alloc,
            splitter: Splitter::new(alloc),
            standing: Standing::Live(Session::Registering(nick)),
        };
        Ok((uplink, bytes))
    }

    /// What these bytes bring. After an error lines may be lost, so nothing is given any more but
    /// the end; the connection should be closed.
    pub fn feed(&mut self, bytes: &[u8]) -> Result<Passed, AllocError>
        ensures ok { IfOk result (λ passed.
            GoesOn self.old (Fed bytes.now) self.new passed.inputs.items passed.reply.items) }
        ensures err { OnErr result (GoesOn self.old Failed self.new [] []) }
        ensures memory { OnErr result (IsLive self.old.standing) }
    {
        // if memory runs out below, the uplink stays lost
        match mem::replace(&mut self.standing, Standing::Lost) {
            Standing::Live(session) => {
                let items = self.splitter.feed(bytes)?;
                let (session, passed) = pass_items(self.alloc, session, items)?;
                self.standing = Standing::Live(session);
                Ok(passed)
            }
            standing => {
                self.standing = standing;
                Ok(Passed::nothing(self.alloc))
            }
        }
    }

    /// Reports that the connection is gone: `Closed`, the first time. It needs no memory.
    pub fn end(&mut self) -> Option<UplinkInput>
        ensures { GoesOn self.old Ended self.new (option_to_list result) [] }
    {
        match mem::replace(&mut self.standing, Standing::Over) {
            Standing::Over => None,
            _ => Some(UplinkInput::Closed),
        }
    }
}
