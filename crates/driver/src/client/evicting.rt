//! A client that the buffers close gets the reason.
ghost use Rattle.std.specs.Prelude.{◌≡◌, IfOk, List, OnOk};
ghost use Rattle.client_gate.specs.Calls.{Call, Stands, gate};
ghost use Rattle.client_gate.specs.declared.settings.Settings.{Settings};
ghost use Rattle.driver.specs.Evicting.{IsToldWhy, evicted_by, eviction_in, eviction_line, eviction_of, is_close};

use crate::client::Client;
use crate::eviction::Eviction;
use crate::news::News;
use crate::orders::Orders;
use bouncer_tower::TowerEffect;
use buffer_commands::Effect;
use request_once::Answer;
use session_fence::FenceEffect;
use std::alloc::{AllocError, Global};
use upstream_claim::ClaimsEffect;

impl Client {
    /// If the buffers close it by this effect while it is registered and connected, the client gets the reason and the
    /// operator a log line.
    pub fn tell_eviction(&self, effect: &TowerEffect, orders: &mut Orders) -> Result<(), AllocError>
        ensures { (s : Settings) (calls : List Call) → Stands s calls self.now.gate → OnOk result
            (IsToldWhy (eviction_in (gate s calls).waiting self.now effect.now) self.now
            orders.old orders.new) }
    {
        let Some(why) = self.eviction_by(effect) else {
            return Ok(());
        };
        orders.log(News::Evicted(self.origin, why))?;
        let line = eviction_line(self.alloc, why)?;
        orders.write(self.origin.client(), line)
    }

    /// Why the buffers close it by this effect, if they do while it is registered and connected.
    fn eviction_by(&self, effect: &TowerEffect) -> Option<Eviction>
        ensures { (s : Settings) (calls : List Call) → Stands s calls self.now.gate →
            result ≡ eviction_in (gate s calls).waiting self.now effect.now }
    {
        if !self.is_attached || self.is_gone || !closes(effect) {
            return None;
        }
        Some(self.eviction())
    }

    /// Why the buffers close it: until its first request, which attaches it, is known to be done, that request was
    /// refused; later it gives way.
    fn eviction(&self) -> Eviction
        ensures { (s : Settings) (calls : List Call) → Stands s calls self.now.gate →
            result ≡ eviction_of (gate s calls).waiting self.now.name }
    {
        if !self.gate.is_attaching() {
            return Eviction::GaveWay;
        }
        match &self.name {
            Some(_) => Eviction::NamesSpent,
            None => Eviction::RunOver,
        }
    }
}

/// Whether the buffers close a client by this effect.
fn closes(effect: &TowerEffect) -> bool
    ensures { result ≡ evicted_by effect.now }
{
    match effect {
        Answer::Effect(ClaimsEffect::Inner(FenceEffect::Inner(effect))) => is_close(effect),
        _ => false,
    }
}

/// Whether an effect of the buffers closes a client.
fn is_close(effect: &Effect) -> bool
    ensures { result ≡ is_close effect.now }
{
    match effect {
        Effect::Close(_) => true,
        Effect::Show(_, _) | Effect::Send(_, _) | Effect::Rejoin(_) => false,
    }
}

/// The line that gives a client the reason why the buffers close it.
fn eviction_line(alloc: Global, why: Eviction) -> Result<Vec<u8>, AllocError>
    ensures { IfOk result (λ line. line.items ≡ eviction_line why) }
{
    let mut line = Vec::from_slice(alloc, b"ERROR :Closing link: ")?;
    line.extend_from_slice(why.words().as_bytes())?;
    line.extend_from_slice(b"\r\n")?;
    Ok(line)
}
