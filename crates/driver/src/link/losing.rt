//! The end of the connection to the server.
ghost use Rattle.std.specs.Prelude.{◌≡◌, [], IfOk, OnOk, Option};
ghost use Rattle.std.specs.Option.{is_some, option_to_list};
ghost use Rattle.uplink.specs.declared.input.UplinkInput.{UplinkInput};
ghost use Rattle.uplink.specs.Calls.{Ended, GoesOn};
ghost use Rattle.driver.specs.Links.{IsLost, backoff_behind, ended_behind, ending, idle_behind, lingering, waiting_behind};
ghost use Rattle.driver.specs.Telling.{ordered};

use crate::link::{Link, Stage};
use crate::news::{Ending, News};
use crate::order::Now;
use crate::orders::Orders;
use crate::outgoing::Outgoing;
use crate::timer::Timer;
use std::alloc::AllocError;
use uplink::Uplink;

/// How long a session must last for the first wait to be the shortest again, in milliseconds.
const GOOD_SESSION: u64 = 60_000;

impl Link {
    /// The connection is gone, or could not be made, and nothing waits to go out any more. Returns whether its node has
    /// to be told.
    pub fn lose(&mut self, now: &Now, why: Ending, orders: &mut Orders) -> Result<bool, AllocError>
        ensures told { OnOk result (orders.new ≡ ordered orders.old (ending self.old.stage why)) }
        ensures stage { OnOk result
            (self.new.stage ≡ idle_behind self.old.stage self.old.backoff now.now.ms) }
        ensures lost { IfOk result (λ lost. IsLost self.old.stage lost) }
        ensures backoff { OnOk result
            (self.new.backoff ≡ backoff_behind self.old.stage why self.old.backoff now.now.ms) }
        ensures ended { OnOk result
            (self.new.ended ≡ ended_behind self.old.stage why self.old.ended) }
        ensures waiting { OnOk result
            (self.new.waiting ≡ waiting_behind self.old.stage self.old.waiting) }
        ensures keys { OnOk result (self.new.keys ≡ self.old.keys) }
        ensures absent { OnOk result (self.new.absent ≡ self.old.absent) }
    {
        let lost = match &mut self.stage {
            Stage::Idle(_, _) => return Ok(false),
            Stage::Closing(_, wait) => {
                self.stage = Stage::Idle(Timer::from(now.ms), *wait);
                return Ok(false);
            }
            Stage::Connecting(node) => {
                orders.log(News::Unopened(*node, why))?;
                false
            }
            Stage::Open(session) => {
                if session.since.has_passed(GOOD_SESSION, now.ms) {
                    self.backoff.reset();
                }
                let news = News::of_end(session.is_opened, session.node, why);
                orders.log(news)?;
                end(&mut session.uplink)
            }
        };
        let wait = self.backoff.end(why.is_failure());
        self.stage = Stage::Idle(Timer::from(now.ms), wait);
        self.ended = Some(why);
        self.waiting = Outgoing::new(self.alloc);
        Ok(lost)
    }

    /// The session is over and the server knows: it is to close the connection.
    pub fn linger(&mut self)
        ensures { self.new ≡ record self.old { stage = lingering self.old.stage } }
    {
        if let Stage::Idle(since, wait) = self.stage {
            self.stage = Stage::Closing(since, wait);
        }
    }
}

/// Ends a session's uplink. Returns whether the uplink passes that on.
fn end(uplink: &mut Uplink) -> bool
    ensures { (given : Option UplinkInput) × GoesOn uplink.old Ended uplink.new
        (option_to_list given) [] × (result ≡ is_some given) }
{
    uplink.end().is_some()
}
