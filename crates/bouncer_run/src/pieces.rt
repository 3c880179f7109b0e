//! The next piece of what came, if it is to be read: what it would bring may have to wait.
ghost use Rattle.std.specs.Prelude.{◌≡◌, not, true, IsTrue};
ghost use Rattle.driver.specs.Links.{node_of};
ghost use Rattle.driver.specs.Rosters.{client_at, is_leaving_in, is_read_for};
ghost use Rattle.bouncer_run.specs.Connections.{is_later};
ghost use Rattle.bouncer_run.specs.Hearing.{HasGiven};
ghost use Rattle.bouncer_run.specs.Turns.{IsReadNow};

use crate::connection::{Connection, Got};
use driver::Driver;
use std::io::{Read, Write};

/// How many bytes are read before the next check whether more are to be read: few, since each line
/// of them is a note that waits.
pub const PIECE: usize = 512;

/// How many pieces of one connection are read before the others are looked at.
pub const PIECES: usize = 16;

/// The next piece of what a client sent. It is read before it registered, then while the driver
/// reads the client, and at no other time: nothing is read from a client that leaves.
pub fn next_of_client<S: Read + Write + Drop>(
    driver: &Driver,
    number: u64,
    connection: &mut Connection<S>,
    piece: &mut [u8],
) -> Got
    ensures later { IsReadNow (not (is_later result)) driver.now.orders driver.now.monitors
        (client_at driver.now.clients number) }
    ensures untouched { IsTrue (is_later result) → piece.new ≡ piece.old }
    ensures leaving { is_leaving_in (client_at driver.now.clients number) ≡ true
        → (result ≡ Got.Nothing) × (piece.new ≡ piece.old) }
    ensures gives { HasGiven (S.remaining connection.old.stream)
        (S.remaining connection.new.stream) result piece.new }
    ensures rest { connection.new ≡ record connection.old { stream = connection.new.stream } }
{
    if !reads_client(driver, number) {
        return Got::Later;
    }
    if driver.is_leaving(number) {
        return Got::Nothing;
    }
    connection.read(piece)
}

/// The next piece of what the server sent. It is read only while the driver reads the server.
pub fn next_of_server<S: Read + Write + Drop>(
    driver: &Driver,
    connection: &mut Connection<S>,
    piece: &mut [u8],
) -> Got
    ensures later { is_later result ≡ not (is_read_for driver.now.orders driver.now.monitors
        (node_of driver.now.link.stage)) }
    ensures untouched { IsTrue (is_later result) → piece.new ≡ piece.old }
    ensures gives { HasGiven (S.remaining connection.old.stream)
        (S.remaining connection.new.stream) result piece.new }
    ensures rest { connection.new ≡ record connection.old { stream = connection.new.stream } }
{
    if !driver.reads_server() {
        return Got::Later;
    }
    connection.read(piece)
}

/// Whether a client has its turn at this moment: always before it registered, since what it sends
/// until then asks its node for nothing, and its time to register passes; and when it leaves, since
/// nothing is read from it then.
pub fn reads_client(driver: &Driver, number: u64) -> bool
    ensures { IsReadNow result driver.now.orders driver.now.monitors
        (client_at driver.now.clients number) }
{
    driver.is_leaving(number) || !driver.is_attached(number) || driver.reads_client(number)
}
