ghost use Rattle.std.specs.Prelude.{◌≡◌, IfOk};
ghost use Rattle.client_gate.specs.Registering.{last_admission};

use crate::admission::{Admission, admission};
use crate::password::Password;
use std::alloc::{AllocError, Global};

/// What came from a client before it is registered: the last PASS, and whether NICK and USER were
/// seen.
#[derive(Drop)]
pub struct Arrival {
    pub password: Option<Password>,
    pub nick: bool,
    pub user: bool,
}

/// How far the registration of a client has come.
#[derive(Drop)]
pub enum Phase {
    /// It is not registered yet.
    Arriving(Arrival),
    /// Its request 1 was Attach.
    Attached,
    /// Its last request was Leave.
    Left,
}

impl Arrival {
    pub fn copy(&self, alloc: Global) -> Result<Arrival, AllocError>
        ensures { IfOk result (λ a. a ≡ self.now) }
    {
        let password = match &self.password {
            None => None,
            Some(password) => Some(password.copy(alloc)?),
        };
        Ok(Arrival {
            password,
            nick: self.nick,
            user: self.user,
        })
    }

    /// The name with which the last PASS lets the client in.
    pub fn admission(&self, alloc: Global, right: &Password) -> Result<Admission, AllocError>
        ensures { IfOk result (λ a. a ≡ last_admission right.now self.now.password) }
    {
        match &self.password {
            None => Ok(None),
            Some(password) => admission(alloc, right, password),
        }
    }
}

impl Phase {
    pub fn copy(&self, alloc: Global) -> Result<Phase, AllocError>
        ensures { IfOk result (λ p. p ≡ self.now) }
    {
        match self {
            Phase::Arriving(arrival) => Ok(Phase::Arriving(arrival.copy(alloc)?)),
            Phase::Attached => Ok(Phase::Attached),
            Phase::Left => Ok(Phase::Left),
        }
    }
}
