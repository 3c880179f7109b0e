//! Whether a PASS lets a client in, and with which name: it is the password, or anything, `@`, the name, `:` and the
//! password.
ghost use Rattle.std.specs.Prelude.{◌≡◌, Some, None, IfOk, MatchOption};
ghost use Rattle.client_gate.specs.Registering.{admission, by_name, first_cut, named_in};

use crate::password::Password;
use crate::splitting::at_separator;
use irc_line::Name;
use std::alloc::{AllocError, Global};

/// Whether a client is let in, and then the name that it gave, if it gave one.
pub type Admission = Option<Option<Name>>;

/// The name with which a PASS lets a client in.
pub fn admission(alloc: Global, right: &Password, pass: &Password) -> Result<Admission, AllocError>
    ensures { IfOk result (λ a. a ≡ admission right.now pass.now) }
{
    // checked first: a password may contain an `@` and a `:`
    if pass.is(right) {
        return Ok(Some(None));
    }
    match name_and_password(pass.as_bytes()) {
        None => Ok(None),
        Some((name, password)) => admit_named(alloc, right, name, password),
    }
}

/// What is between the first `@` and the first `:` after that, and what follows this.
fn name_and_password(pass: &[u8]) -> Option<(&[u8], &[u8])>
    ensures { MatchOption result (named_in pass.now ≡ None)
        (λ t. named_in pass.now ≡ Some (t.0.now, t.1.now)) }
{
    match at_separator(pass, b'@') {
        None => None,
        Some((_, behind)) => at_separator(behind, b':'),
    }
}

/// Admits a client that gives a name, which may be no name, and a password, which may be wrong.
fn admit_named(
    alloc: Global,
    right: &Password,
    name: &[u8],
    password: &[u8],
) -> Result<Admission, AllocError>
    ensures { IfOk result (λ a. a ≡ by_name right.now (Some (name.now, password.now))) }
{
    if !right.has_bytes(password) {
        return Ok(None);
    }
    match Name::from_bytes(Vec::from_slice(alloc, name)?) {
        None => Ok(None),
        Some(name) => Ok(Some(Some(name))),
    }
}
