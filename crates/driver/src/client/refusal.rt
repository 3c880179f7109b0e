//! A client whose password was wrong: the answer of its gate is held back, and nothing more is taken from it.
ghost use Rattle.std.specs.Prelude.{◌≡◌, IfOk, List, OnOk, is_some, option_map};
ghost use Rattle.client_gate.specs.Calls.{Call, Stands, gate};
ghost use Rattle.client_gate.specs.Gates.{is_turned_down};
ghost use Rattle.client_gate.specs.declared.settings.Settings.{Settings};
ghost use Rattle.driver.specs.Clients.{asked_by, due_answer, is_shut, kept_back, left_news};
ghost use Rattle.driver.specs.Serving.{TakesBy};
ghost use Rattle.driver.specs.Telling.{ordered};

use crate::client::Client;
use crate::news::News;
use crate::order::Now;
use crate::orders::Orders;
use client_gate::{Fed, StatusWord};
use std::alloc::AllocError;

/// What a client whose password was wrong is still to be sent, and when.
#[derive(Drop)]
pub struct Refusal {
    /// The gate's answer: whole lines.
    answer: Vec<u8>,
    /// The moment from which on it is sent, and the client closed.
    due: u64,
}

impl Client {
    /// Whether nothing more is taken from it: it is leaving, its connection is gone, or its password was wrong.
    pub fn is_shut(&self) -> bool
        ensures { result ≡ is_shut self.now }
    {
        self.is_leaving() || self.is_refused()
    }

    /// Whether its password was wrong, and it has not been answered yet.
    pub fn is_refused(&self) -> bool
        ensures { result ≡ is_some self.now.refused }
    {
        self.refused.is_some()
    }

    /// What its gate answered goes on, but after a wrong password it is held back until this moment. Returns what the
    /// client said to the bouncer that asks nothing of the buffers.
    pub(crate) fn take(
        &mut self,
        now: &Now,
        fed: Fed,
        due: u64,
        orders: &mut Orders,
    ) -> Result<Vec<StatusWord>, AllocError>
        ensures taken { (s : Settings) (calls : List Call) → Stands s calls self.old.gate →
            OnOk result (TakesBy (is_turned_down (gate s calls).phase) s calls fed now.now.ms
            now.now.at due self.old orders.old self.new orders.new) }
        ensures said { IfOk result (λ words. words.items ≡ fed.words.items) }
    {
        if self.gate.is_turned_down() {
            self.keep_back(now, fed, due, orders)
        } else {
            self.pass(now, fed, orders)
        }
    }

    /// Holds the gate's answer back until this moment. A request, if there is one, goes to the node.
    fn keep_back(
        &mut self,
        now: &Now,
        fed: Fed,
        due: u64,
        orders: &mut Orders,
    ) -> Result<Vec<StatusWord>, AllocError>
        ensures told { OnOk result (orders.new ≡ ordered orders.old
            (asked_by self.old now.now.at fed.requests.items)) }
        ensures kept { OnOk result (self.new ≡ kept_back due self.old fed) }
        ensures said { IfOk result (λ words. words.items ≡ fed.words.items) }
    {
        let Fed {
            requests,
            reply,
            words,
            close: _,
        } = fed;
        self.ask_all(now, requests, orders)?;
        self.refused = Some(Refusal { answer: reply, due });
        Ok(words)
    }

    /// The answer to a wrong password, if its moment has come.
    pub(crate) fn due_answer(&self, now: &Now) -> Option<&[u8]>
        ensures { option_map (λ answer. answer.now) result ≡ due_answer self.now.refused now.now.ms }
    {
        match &self.refused {
            Some(refusal) => if refusal.due <= now.ms {
                Some(refusal.answer.as_slice())
            } else {
                None
            },
            None => None,
        }
    }

    /// Logs that it left, if it had registered.
    pub(crate) fn tell_left(&self, orders: &mut Orders) -> Result<(), AllocError>
        ensures { OnOk result (orders.new
            ≡ ordered orders.old (left_news self.now.is_attached self.now.origin)) }
    {
        if !self.is_attached {
            return Ok(());
        }
        orders.log(News::Left(self.origin))
    }
}
