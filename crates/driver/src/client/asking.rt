//! When a client's requests go to its node.
ghost use Rattle.std.specs.Prelude.{◌≡◌, ◌||◌, IfOk, List, OnOk};
ghost use Rattle.client_gate.specs.Calls.{Call, Stands, gate};
ghost use Rattle.client_gate.specs.declared.settings.Settings.{Settings};
ghost use Rattle.driver.specs.Asking.{asked_anew, begun, now_asked};
ghost use Rattle.driver.specs.Clients.{asked_by, asks_of, is_some_asked, name_asked, named_by, note_of};
ghost use Rattle.driver.specs.Cycling.{parted_all};
ghost use Rattle.driver.specs.Telling.{ordered};

use crate::client::{Asked, Client};
use crate::news::News;
use crate::order::{Now, TowerNote};
use crate::orders::Orders;
use crate::timer::Timer;
use bouncer_tower::Tower;
use buffer_commands::Action;
use client_gate::Request;
use irc_line::Name;
use machine_laws::Hosted;
use node_notes::Note;
use raft_log::NodeId;
use std::alloc::{AllocError, Global};
use wire_bytes::{Copied, Origin};

impl Client {
    /// If nothing waits, the next request is the oldest, and nothing holds it up.
    pub(crate) fn begin_asking(&mut self, now: &Now, orders: &Orders)
        ensures { (s : Settings) (calls : List Call) → Stands s calls self.old.gate →
            self.new ≡ begun (now_asked orders.now now.now.ms self.old) (gate s calls).waiting self.old }
    {
        if self.gate.waiting() == 0 {
            self.asked = self.asked_now(now, orders);
            self.is_held_up = false;
        }
    }

    /// The number of the note in which the next request would go now, and the time.
    fn asked_now(&self, now: &Now, orders: &Orders) -> Asked
        ensures { result ≡ now_asked orders.now now.now.ms self.now }
    {
        Asked {
            note: orders.next(self.node()),
            at: Timer::from(now.ms),
        }
    }

    /// Its requests go out, a JOIN after a PART of the same channel as a line. The first request attaches the client,
    /// with a name or without.
    #[tactic(auto, unfolding(crate::specs::Clients::asked_all, crate::specs::Cycling::reworded, crate::specs::Cycling::parted_all))]
    pub(crate) fn ask_all(
        &mut self,
        now: &Now,
        requests: Vec<Request>,
        orders: &mut Orders,
    ) -> Result<(), AllocError>
        ensures asked { OnOk result (orders.new ≡ ordered orders.old
            (asked_by self.old now.now.at requests.items)) }
        ensures rest { OnOk result (self.new ≡ record self.old {
          is_attached = self.old.is_attached || is_some_asked requests.items;
          name = named_by self.old.is_attached self.old.name requests.items;
          parting = parted_all self.old.channels self.old.parting requests.items;
        }) }
    {
        if requests.is_empty() {
            return Ok(());
        }
        if !self.is_attached {
            self.is_attached = true;
            self.name = name_asked(self.alloc, requests.as_slice())?;
            let name = name_asked(self.alloc, requests.as_slice())?;
            orders.log(News::Attached(self.origin, name))?;
        }
        let told = self.reword(requests)?;
        ask_each(self.origin, now, told, orders)
    }

    /// Sends again the requests that are not known to be done.
    pub(crate) fn ask_again(&mut self, now: &Now, orders: &mut Orders) -> Result<(), AllocError>
        ensures asked { (s : Settings) (calls : List Call) → Stands s calls self.old.gate →
            OnOk result (orders.new ≡ ordered orders.old
            (asks_of self.old.origin now.now.at (gate s calls).waiting)) }
        ensures rest { OnOk result
            (self.new ≡ asked_anew (now_asked orders.old now.now.ms self.old) self.old) }
    {
        let waiting = self.gate.again()?;
        self.asked = self.asked_now(now, orders);
        ask_each(self.origin, now, waiting, orders)
    }
}

/// The name by which these requests attach a client, if the first one gives a name.
fn name_asked(alloc: Global, requests: &[Request]) -> Result<Option<Name>, AllocError>
    ensures { IfOk result (λ name. name ≡ name_asked requests.now) }
{
    let [first, ..] = requests else {
        return Ok(None);
    };
    match &first.action {
        Action::Attach(Some(name)) => Ok(Some(name.copy(alloc)?)),
        _ => Ok(None),
    }
}

/// Each request goes to its client's node, in order.
#[tactic(auto, unfolding(crate::specs::Clients::asks_of))]
fn ask_each(
    origin: Origin,
    now: &Now,
    requests: Vec<Request>,
    orders: &mut Orders,
) -> Result<(), AllocError>
    ensures { OnOk result
        (orders.new ≡ ordered orders.old (asks_of origin now.now.at requests.items)) }
{
    for request in requests {
        orders.submit(NodeId::new(origin.node()), asks(origin, now, request))?;
    }
    Ok(())
}

/// A request as a note to its client's node.
pub fn asks(origin: Origin, now: &Now, request: Request) -> TowerNote
    ensures { result ≡ note_of origin now.now.at request }
{
    let Request { number, action } = request;
    let body = <Tower as Hosted>::asked(origin, number, now.at, action);
    Note::Ask(body)
}
