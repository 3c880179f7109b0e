//! Steps of a story.
use crate::drive::orders::push_orders;
use crate::drive::reports::{closing, doing, rejoining, report, showing};
use crate::drive::standing::standing_of;
use crate::stories::fault::Fault;
use crate::stories::words::{bytes_of, cut, node_of, number};
use driver::{Driver, Ending, Now};
use irc_line::{Line, is_same};
use recorder::read_number;
use std::alloc::{AllocError, Global};
use wire_bytes::Moment;

/// The most times that a step is repeated.
const MOST_TIMES: u64 = 1_000;

/// Takes the step of this line. Where the line says what is to come, what comes is appended as such a line; nothing
/// where that is so.
pub fn take_step(
    alloc: Global,
    driver: &mut Driver,
    line: &[u8],
    came: &mut Vec<u8>,
) -> Result<(), Fault> {
    let (word, rest) = cut(line);
    if let Some(ms) = read_number(word) {
        let at = Moment::new(1_700_000_000);
        happen(alloc, driver, &Now { ms, at }, rest, came)
    } else if is_same(word, b"orders") {
        came.extend_from_slice(word)?;
        Ok(push_orders(alloc, came, driver)?)
    } else if is_same(word, b"unheard") {
        let count = driver.unheard();
        Ok(came.extend_from_slice(format!(in alloc; "unheard {count}")?.as_bytes())?)
    } else if is_same(word, b"forget") {
        driver.orders();
        Ok(())
    } else if holds(driver, line)? {
        Ok(())
    } else {
        Ok(came.extend_from_slice(b"the opposite")?)
    }
}

/// This happens, to a node, a client or the server, or time passes.
fn happen(
    alloc: Global,
    driver: &mut Driver,
    now: &Now,
    text: &[u8],
    came: &mut Vec<u8>,
) -> Result<(), Fault> {
    let (who, rest) = cut(text);
    if is_same(who, b"node") {
        node_does(alloc, driver, now, rest, came)
    } else if is_same(who, b"client") {
        client_does(alloc, driver, now, rest)
    } else if is_same(who, b"server") {
        server_does(alloc, driver, now, rest)
    } else if is_same(who, b"tick") {
        Ok(driver.tick(now)?)
    } else if is_same(who, b"ticks") {
        tick_often(driver, now, number(rest)?)
    } else if is_same(who, b"watch") {
        Ok(driver.watch_nodes(now)?)
    } else if is_same(who, b"passwords") {
        Ok(driver.watch_passwords(now)?)
    } else if is_same(who, b"end") {
        Ok(driver.end(now)?)
    } else {
        Err(Fault::NoStep)
    }
}

/// So many half seconds pass, with a tick behind each.
fn tick_often(driver: &mut Driver, now: &Now, count: u64) -> Result<(), Fault> {
    let mut now = *now;
    for _ in 0..count.min(MOST_TIMES) {
        now.ms = now.ms.saturating_add(500);
        driver.tick(&now)?;
    }
    Ok(())
}

/// A node does this.
fn node_does(
    alloc: Global,
    driver: &mut Driver,
    now: &Now,
    text: &[u8],
    came: &mut Vec<u8>,
) -> Result<(), Fault> {
    let (digits, rest) = cut(text);
    let node = node_of(digits)?;
    let (verb, rest) = cut(rest);
    if is_same(verb, b"takes") {
        let (ms, number) = (now.ms, node.value());
        let took = match driver.connect(now, node)? {
            Some(client) => format!(in alloc; "{ms} node {number} takes client {client}")?,
            None => format!(in alloc; "{ms} node {number} takes nobody")?,
        };
        Ok(came.extend_from_slice(took.as_bytes())?)
    } else if is_same(verb, b"hands") {
        Ok(driver.hand(node, &Line::parse(alloc, rest)?)?)
    } else if is_same(verb, b"shows") {
        Ok(driver.hear(now, showing(alloc, node, rest)?)?)
    } else if is_same(verb, b"closes") {
        Ok(driver.hear(now, closing(alloc, node, rest)?)?)
    } else if is_same(verb, b"rejoins") {
        Ok(driver.hear(now, rejoining(alloc, node, rest)?)?)
    } else if is_same(verb, b"does") {
        Ok(driver.hear(now, doing(alloc, node, rest)?)?)
    } else {
        Ok(driver.hear(now, report(alloc, node, standing_of(verb, rest)?))?)
    }
}

/// A client does this.
fn client_does(alloc: Global, driver: &mut Driver, now: &Now, text: &[u8]) -> Result<(), Fault> {
    let (digits, rest) = cut(text);
    let client = number(digits)?;
    let (verb, rest) = cut(rest);
    if is_same(verb, b"sends") {
        let bytes = bytes_of(alloc, rest)?;
        Ok(driver.receive(now, client, &bytes)?)
    } else if is_same(verb, b"repeats") {
        let (times, text) = cut(rest);
        let bytes = bytes_of(alloc, text)?;
        for _ in 0..number(times)?.min(MOST_TIMES) {
            driver.receive(now, client, &bytes)?;
        }
        Ok(())
    } else if is_same(verb, b"leaves") {
        Ok(driver.lose(now, client)?)
    } else {
        Err(Fault::NoStep)
    }
}

/// The server does this.
fn server_does(alloc: Global, driver: &mut Driver, now: &Now, text: &[u8]) -> Result<(), Fault> {
    let (verb, rest) = cut(text);
    if is_same(verb, b"connected") {
        Ok(driver.connected(now)?)
    } else if is_same(verb, b"sends") {
        let bytes = bytes_of(alloc, rest)?;
        Ok(driver.receive_line(now, &bytes)?)
    } else if is_same(verb, b"repeats") {
        let (times, text) = cut(rest);
        let bytes = bytes_of(alloc, text)?;
        for _ in 0..number(times)?.min(MOST_TIMES) {
            driver.receive_line(now, &bytes)?;
        }
        Ok(())
    } else if is_same(verb, b"closed") {
        Ok(driver.close(now, Ending::ByServer)?)
    } else if is_same(verb, b"refused") {
        Ok(driver.close(now, Ending::Refused)?)
    } else {
        Err(Fault::NoStep)
    }
}

/// Whether it is as this line says: `client 1 is attached`, `node 2 is not hanging`, `server is read`.
fn holds(driver: &Driver, line: &[u8]) -> Result<bool, Fault> {
    let (who, rest) = cut(line);
    if is_same(who, b"server") {
        let (is_so, word) = claim(rest)?;
        return if is_same(word, b"read") {
            Ok(driver.reads_server() == is_so)
        } else {
            Err(Fault::NoStep)
        };
    }
    let (digits, rest) = cut(rest);
    let (is_so, word) = claim(rest)?;
    if is_same(who, b"node") && is_same(word, b"hanging") {
        Ok(driver.is_hanging(node_of(digits)?) == is_so)
    } else if is_same(who, b"client") {
        Ok(client_is(driver, number(digits)?, word)? == is_so)
    } else {
        Err(Fault::NoStep)
    }
}

/// Whether a line that ends in `is WORD` or `is not WORD` says that it is so, and its word.
fn claim(text: &[u8]) -> Result<(bool, &[u8]), Fault> {
    let word = text.strip_prefix(b"is ").ok_or(Fault::NoStep)?;
    match word.strip_prefix(b"not ") {
        Some(word) => Ok((false, word)),
        None => Ok((true, word)),
    }
}

/// Whether a client is as this word says.
fn client_is(driver: &Driver, client: u64, word: &[u8]) -> Result<bool, Fault> {
    if is_same(word, b"attached") {
        Ok(driver.is_attached(client))
    } else if is_same(word, b"leaving") {
        Ok(driver.is_leaving(client))
    } else if is_same(word, b"read") {
        Ok(driver.reads_client(client))
    } else {
        Err(Fault::NoStep)
    }
}
