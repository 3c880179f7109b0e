//! What a gate hears, by examples.
use crate::made::shown;
use buffer_commands::Effect;
use client_gate::GateEffect;
use request_once::Answer;
use session_fence::FenceEffect;
use std::alloc::Global;
use std::test::Fail;
use upstream_claim::ClaimsEffect;
use wire_bytes::Origin;

/// The client of a gate, or another.
#[derive(Clone, Copy)]
pub enum Client {
    Own,
    Other,
}

impl Client {
    pub fn origin(self) -> Origin {
        match self {
            Client::Own => Origin::new(1, 1, 1),
            Client::Other => Origin::new(2, 1, 1),
        }
    }
}

/// What a gate hears.
#[derive(Clone, Copy)]
pub enum Heard<'a> {
    /// This line is shown to a client.
    Show(Client, &'a [u8]),
    Close(Client),
    Busy(Client),
    Done(Client, u64),
    Repeat(Client, u64),
    Gap(Client, u64),
}

impl<'a> Heard<'a> {
    pub fn effect(&self, alloc: Global) -> Result<GateEffect, Fail> {
        Ok(match self {
            Heard::Show(to, line) => of_buffers(Effect::Show(to.origin(), shown(alloc, line)?)),
            Heard::Close(to) => of_buffers(Effect::Close(to.origin())),
            Heard::Busy(to) => Answer::Effect(ClaimsEffect::Busy(to.origin())),
            Heard::Done(to, number) => Answer::Done(to.origin(), *number),
            Heard::Repeat(to, number) => Answer::Repeat(to.origin(), *number),
            Heard::Gap(to, number) => Answer::Gap(to.origin(), *number),
        })
    }
}

/// An effect of the buffers.
fn of_buffers(effect: Effect) -> GateEffect {
    Answer::Effect(ClaimsEffect::Inner(FenceEffect::Inner(effect)))
}
