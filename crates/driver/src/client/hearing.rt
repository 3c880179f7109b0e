//! Effects of a client's requests.
ghost use Rattle.std.specs.Prelude.{◌≡◌, List, OnOk};
ghost use Rattle.client_gate.specs.Calls.{Call, Stands};
ghost use Rattle.client_gate.specs.declared.settings.Settings.{Settings};
ghost use Rattle.driver.specs.Asking.{held_behind};
ghost use Rattle.driver.specs.Serving.{Hears, HearsEffect};

use crate::client::Client;
use crate::order::Now;
use crate::orders::Orders;
use bouncer_tower::TowerEffect;
use request_once::Answer;
use std::alloc::AllocError;

impl Client {
    /// An effect of a request came, under this nick. A leaving client is closed once its last request is done.
    pub fn hear(
        &mut self,
        now: &Now,
        nick: &[u8],
        effect: &TowerEffect,
        orders: &mut Orders,
    ) -> Result<(), AllocError>
        ensures { (s : Settings) (calls : List Call) → Stands s calls self.old.gate →
            OnOk result (Hears effect.now nick.now now.now.ms now.now.at s calls
            self.old orders.old self.new orders.new) }
    {
        self.hear_effect(now, nick, effect, orders)?;
        self.part_if_done(now, orders)
    }

    /// An effect of a request came, under this nick.
    fn hear_effect(
        &mut self,
        now: &Now,
        nick: &[u8],
        effect: &TowerEffect,
        orders: &mut Orders,
    ) -> Result<(), AllocError>
        ensures { (s : Settings) (calls : List Call) → Stands s calls self.old.gate →
            OnOk result (HearsEffect effect.now nick.now now.now.ms now.now.at s calls
            self.old orders.old self.new orders.new) }
    {
        self.begin_asking(now, orders);
        match self.gate.on_effect(effect) {
            Ok(fed) => {
                self.is_held_up = is_held_behind(effect, self.is_held_up);
                self.follow(nick, effect)?;
                self.pass(now, fed, orders)?;
            }
            Err(_) => self.part(now, orders)?,
        }
        Ok(())
    }
}

/// Whether a client is held up after this effect, given whether it was before: a left-out number holds it up, and a
/// request done for it ends that.
fn is_held_behind(effect: &TowerEffect, is_held_up: bool) -> bool
    ensures { result ≡ held_behind effect.now is_held_up }
{
    match effect {
        Answer::Gap(_, _) => true,
        Answer::Done(_, _) | Answer::Repeat(_, _) => false,
        Answer::Effect(_) | Answer::Marked(_) => is_held_up,
    }
}
