ghost use Rattle.std.specs.Prelude.{◌≡◌, ℕ, ◌≤◌, Some, Ok};
ghost use Rattle.wire_bytes.specs.Limits.{node_limit, number_limit};

use crate::copied::Copied;
use crate::fields::{take_behind, take_byte, undo};
use crate::number::Number;
use crate::wire::Wire;
use crate::wire_fault::WireFault;
use std::alloc::{AllocError, Global};
use std::fmt;
use std::marker::Model;

/// A client's connection: its node, that node's run, and its number within that run.
///
/// A clause sees it as the three numbers; the order is by node, run and number.
#[derive(Clone, Copy, Debug, PartialEq, Eq, PartialOrd, Ord)]
pub struct Origin {
    node: u8,
    boot: u64,
    client: u64,
}

impl Model for Origin {
    ghost use Rattle.std.specs.Prelude.{ℕ, ◌≤◌};
    ghost use Rattle.wire_bytes.specs.Limits.{node_limit, number_limit};

    ghost Value = { ℕ × ℕ × ℕ };

    ghost view = { λ o. (o.node, o.boot, o.client) };

    ghost invariant = { λ o. (1 ≤ o.node) × (o.node ≤ node_limit) × (o.boot ≤ number_limit)
        × (o.client ≤ number_limit) };

    ghost inverse = { λ v. record { node = v.0; boot = v.1; client = v.2 } };
}

impl Origin {
    pub fn new(node: u8, boot: u64, client: u64) -> Origin
        requires { (1 ≤ node) × (node ≤ node_limit) × (boot ≤ number_limit) × (client ≤ number_limit) }
        ensures { result ≡ (node, boot, client) }
    {
        Origin { node, boot, client }
    }

    pub fn node(self) -> u8
        ensures value { result ≡ self.0 }
        ensures limits { (1 ≤ self.0) × (self.0 ≤ node_limit) }
    {
        self.node
    }

    /// Which run of its node it came in.
    pub fn boot(self) -> u64
        ensures value { result ≡ self.1 }
        ensures limit { self.1 ≤ number_limit }
    {
        self.boot
    }

    /// Its number among the clients of that run.
    pub fn client(self) -> u64
        ensures value { result ≡ self.2 }
        ensures limit { self.2 ≤ number_limit }
    {
        self.client
    }
}

impl Copied for Origin {
    fn copy(&self, _alloc: Global) -> Result<Self, AllocError>
        ensures { result ≡ Ok self.now }
    {
        Ok(*self)
    }
}

impl Wire for Origin {
    ghost use Rattle.wire_bytes.specs.Values.{spelled_origin, FitsOrigin, origin};
    ghost use Rattle.wire_bytes.specs.Wants.{never};
    ghost use Rattle.wire_bytes.specs.ValueCodecs.{origin_is_codec};

    ghost spelled = { spelled_origin };

    ghost fits = { FitsOrigin };

    ghost taken = { origin };

    ghost wants = { never };

    #[tactic(auto, unfolding(crate::specs::Values::spelled_origin))]
    fn put(&self, out: &mut Vec<u8>) -> Result<(), AllocError> {
        let len = out.len();
        out.push(self.node)?;
        let outcome = (Number::new(self.boot), Number::new(self.client)).put(out);
        undo(out, len, outcome)
    }

    fn take(alloc: Global, input: &[u8]) -> Result<(Self, usize), WireFault> {
        let (node, place) = take_byte(input, 1, 7)?;
        let ((boot, client), len) = take_behind::<(Number, Number)>(alloc, input, place)?;
        Ok((Origin::new(node, boot.value(), client.value()), len))
    }

    ghost is_codec = { origin_is_codec };
}

impl fmt::Display for Origin {
    ghost use Rattle.std.specs.Prelude.{Some};
    ghost use Rattle.wire_bytes.specs.Texts.{origin_text};

    ghost output = { λ o. Some (origin_text o) };

    fn fmt<W: fmt::Write>(&self, f: &mut fmt::Formatter<W>) -> fmt::Result {
        let Origin { node, boot, client } = *self;
        write!(f, "{node}.{boot}.{client}")
    }
}
