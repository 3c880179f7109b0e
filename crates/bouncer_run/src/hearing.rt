//! What came of a connection goes to the driver, piece by piece.
ghost use Rattle.std.specs.Prelude.{◌≡◌, OnOk};
ghost use Rattle.bouncer_run.specs.Hearing.{HasHeard, takes_of_client, takes_of_server};

use crate::connection::{Connection, Got, Reading};
use crate::edge_news::EdgeNews;
use crate::event_loop::LoopFault;
use crate::pieces::{PIECE, PIECES, next_of_client, next_of_server};
use crate::reasons::Reasons;
use driver::{Driver, Now};
use std::io::{Read, Write};

/// Reads what a client sent, as far as it is to be read, and gives it to the driver.
pub fn hear_client<S: Read + Write + Drop>(
    now: &Now,
    driver: &mut Driver,
    number: u64,
    connection: &mut Connection<S>,
) -> Result<Reading, LoopFault>
    ensures heard { OnOk result (HasHeard (takes_of_client now.now number)
        (S.remaining connection.old.stream) (S.remaining connection.new.stream)
        driver.old driver.new) }
    ensures rest { connection.new ≡ record connection.old { stream = connection.new.stream } }
{
    let mut piece = [0u8; PIECE];
    for _ in 0..PIECES {
        match next_of_client(driver, number, connection, &mut piece) {
            Got::Bytes(count) => take(now, driver, number, &piece[..count])?,
            Got::Nothing => return Ok(Reading::Done),
            Got::End(why) => return Ok(Reading::Ended(why)),
            Got::Later => return Ok(Reading::Later),
        }
    }
    Ok(Reading::More)
}

/// What a client sent goes to the driver. If nothing new is taken from it, it gets a line that says
/// so, except for a PING, which asks for nothing that is kept.
fn take(now: &Now, driver: &mut Driver, number: u64, bytes: &[u8]) -> Result<(), LoopFault>
    ensures { OnOk result (takes_of_client now.now number bytes.now driver.old driver.new) }
{
    if driver.refuses(number) && !bytes.starts_with(b"PING") {
        driver.refuse(number)?;
    } else {
        driver.receive(now, number, bytes)?;
    }
    Ok(())
}

/// Reads what the server sent, as far as it is to be read, and gives it to the driver. Why the
/// server refuses a session, if it says so, is to be logged.
pub fn hear_server<S: Read + Write + Drop>(
    now: &Now,
    driver: &mut Driver,
    connection: &mut Connection<S>,
    reasons: &mut Reasons,
    news: &mut Vec<EdgeNews>,
) -> Result<Reading, LoopFault>
    ensures heard { OnOk result (HasHeard (takes_of_server now.now)
        (S.remaining connection.old.stream) (S.remaining connection.new.stream)
        driver.old driver.new) }
    ensures rest { connection.new ≡ record connection.old { stream = connection.new.stream } }
{
    let mut piece = [0u8; PIECE];
    for _ in 0..PIECES {
        match next_of_server(driver, connection, &mut piece) {
            Got::Bytes(count) => {
                reasons.hear(&piece[..count], news)?;
                driver.receive_line(now, &piece[..count])?;
            }
            Got::Nothing => return Ok(Reading::Done),
            Got::End(why) => return Ok(Reading::Ended(why)),
            Got::Later => return Ok(Reading::Later),
        }
    }
    Ok(Reading::More)
}
