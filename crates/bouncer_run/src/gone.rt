//! What clients are sent when a session ends.
ghost use Rattle.std.specs.Prelude.{OnOk};
ghost use Rattle.bouncer_run.specs.Responses.{HasNoted};

use driver::Driver;
use std::alloc::{AllocError, Global};

/// If the server was heard since the last line was sent.
const GONE: &[u8] = b"The server is gone. What you say is sent later.";

/// If one line was sent since the server was last heard.
const ONE_UNHEARD: &[u8] =
    b"The server is gone. The last line that was sent may not have arrived. What you say now is sent later.";

/// Clients are sent that the server is gone, and how many lines may not have arrived there.
pub fn tell_gone(alloc: Global, driver: &mut Driver) -> Result<(), AllocError>
    ensures { OnOk result (HasNoted driver.old driver.new) }
{
    match driver.unheard() {
        0 => driver.notice(GONE)?,
        1 => driver.notice(ONE_UNHEARD)?,
        count => {
            let text = format!(in alloc;
                "The server is gone. The last {count} lines that were sent may not have arrived. What you say now is sent later."
            )?;
            driver.notice(text.as_bytes())?
        }
    }
    Ok(())
}
