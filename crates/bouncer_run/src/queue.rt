//! Connections that are ready to be read, in the order in which they became ready.
ghost use Rattle.std.specs.Prelude.{◌≡◌, [], false, length, IfNone, IfSome, OnErr, OnOk};
ghost use Rattle.std.specs.List.{All};
ghost use Rattle.bouncer_run.specs.Turns.{IsTurn, MayBeRead, TakesFirst, joined};

use crate::pieces::reads_client;
use crate::sockets::CLIENTS;
use driver::Driver;
use std::alloc::{AllocError, Global};
use std::marker::Model;

/// Connections that are ready to be read, by their tokens: the one that has waited longest is the
/// first. The system reports what came only once, so a connection that can't be read yet is kept
/// here.
#[derive(Drop)]
pub struct Queue {
    tokens: Vec<usize>,
}

impl Model for Queue {
    ghost use Rattle.std.specs.Prelude.{ℕ, List};

    ghost Value = { List ℕ };

    ghost view = { λ q. q.tokens.items };
}

impl Queue {
    /// Nobody waits.
    pub fn new(alloc: Global) -> Queue
        ensures { result ≡ [] }
    {
        Queue {
            tokens: Vec::new(alloc),
        }
    }

    /// How many wait.
    pub fn len(&self) -> usize
        ensures { result ≡ length self.now }
    {
        self.tokens.len()
    }

    /// A connection waits after all that do. One that waits already keeps its place.
    pub fn join(&mut self, token: usize) -> Result<(), AllocError>
        ensures ok { OnOk result (self.new ≡ joined token self.old) }
        ensures err { OnErr result (self.new ≡ self.old) }
    {
        if self.tokens.as_slice().contains(&token) {
            return Ok(());
        }
        self.tokens.push(token)?;
        Ok(())
    }

    /// The first that may be read at this moment no longer waits; all others keep their places.
    #[tactic(auto, using(crate::proofs::Places::takes_first))]
    pub fn next(&mut self, driver: &Driver) -> Option<usize>
        ensures turn { IfSome result (λ token. TakesFirst driver.now token self.old self.new) }
        ensures nobody { IfNone result ((self.new ≡ self.old)
            × All (λ token. MayBeRead driver.now token false) self.old) }
    {
        let index = first(driver, self.tokens.as_slice())?;
        Some(self.tokens.remove(index))
    }
}

/// The place of the first that may be read at this moment.
fn first(driver: &Driver, tokens: &[usize]) -> Option<usize>
    ensures place { IfSome result (λ index. IsTurn driver.now index tokens.now) }
    ensures nobody { IfNone result (All (λ token. MayBeRead driver.now token false) tokens.now) }
{
    for index in 0..tokens.len() {
        if may_be_read(driver, tokens[index]) {
            return Some(index);
        }
    }
    None
}

/// Whether a connection may be read at this moment.
fn may_be_read(driver: &Driver, token: usize) -> bool
    ensures { MayBeRead driver.now token result }
{
    if token < CLIENTS {
        return driver.reads_server();
    }
    reads_client(driver, (token - CLIENTS) as u64)
}
