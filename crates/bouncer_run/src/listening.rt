//! The addresses at which the nodes listen.
ghost use Rattle.std.specs.Prelude.{IfErr};
ghost use Rattle.bouncer_run.specs.Faults.{IsOrMemory};

use crate::group::address_of;
use crate::run_fault::RunFault;
use crate::sockets::Sockets;
use crate::system::System;
use crate::telling::Telling;
use bouncer_config::{Address, Config};
use driver::Now;
use std::fmt;

/// Each node listens at its address. If one can't, a line was written to standard error that names
/// the address and says why.
pub fn listen_all<R: System>(
    rt: &R,
    config: &Config,
    now: &Now,
    sockets: &mut Sockets,
    telling: &Telling<R>,
) -> Result<(), RunFault>
    ensures { IfErr result (IsOrMemory RunFault.Socket) }
{
    let mut node = 0u8;
    for address in &config.listen {
        node = node.saturating_add(1);
        if let Err(error) = sockets.listen(rt, address_of(*address)) {
            let _ = eprintln!(rt; "{address}: {error}");
            return Err(RunFault::of_error(&error, RunFault::Socket));
        }
        telling.tell(now, node, &Listening { address: *address });
    }
    Ok(())
}

/// A node listens at this address.
#[derive(Clone, Copy)]
struct Listening {
    address: Address,
}

impl fmt::Display for Listening {
    fn fmt<W: fmt::Write>(&self, f: &mut fmt::Formatter<W>) -> fmt::Result {
        let address = self.address;
        write!(f, "listening at {address}")
    }
}
