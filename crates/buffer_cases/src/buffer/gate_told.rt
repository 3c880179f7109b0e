//! What a gate answers, as bytes.
use buffer_commands::Action;
use client_gate::{Fed, Request};
use std::alloc::{AllocError, Global};
use wire_bytes::Wire;

/// What calls answered: a line for each request with its number and the bytes of its action, all
/// bytes that were written, and whether a call closed.
#[derive(Drop)]
pub struct Told {
    pub requests: Vec<u8>,
    pub reply: Vec<u8>,
    pub close: bool,
}

impl Told {
    pub fn new(alloc: Global) -> Told {
        Told {
            requests: Vec::new(alloc),
            reply: Vec::new(alloc),
            close: false,
        }
    }

    pub fn add(&mut self, alloc: Global, fed: &Fed) -> Result<(), AllocError> {
        tell_requests(alloc, &mut self.requests, &fed.requests)?;
        self.reply.extend_from_slice(fed.reply.as_slice())?;
        self.close = self.close || fed.close;
        Ok(())
    }

    pub fn forget(&mut self) {
        self.requests.clear();
        self.reply.clear();
        self.close = false;
    }
}

fn tell_requests(alloc: Global, out: &mut Vec<u8>, requests: &[Request]) -> Result<(), AllocError> {
    for request in requests {
        tell_request(alloc, out, request)?;
    }
    Ok(())
}

pub fn tell_request(alloc: Global, out: &mut Vec<u8>, request: &Request) -> Result<(), AllocError> {
    tell_number(alloc, out, request.number.value())?;
    tell_action(out, &request.action)
}

fn tell_number(alloc: Global, out: &mut Vec<u8>, number: u64) -> Result<(), AllocError> {
    let told = format!(in alloc; "{number} ")?;
    out.extend_from_slice(told.as_bytes())
}

fn tell_action(out: &mut Vec<u8>, action: &Action) -> Result<(), AllocError> {
    action.fits();
    action.put(out)?;
    Ok(out.push(b'\n')?)
}
