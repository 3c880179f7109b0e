//! Orders as text.
use crate::stories::words::push_text;
use driver::{Driver, Order, TowerNote};
use node_notes::Note;
use std::alloc::{AllocError, Global};

/// Appends the orders given since last, each as a word, with a blank before it.
pub fn push_orders(
    alloc: Global,
    out: &mut Vec<u8>,
    driver: &mut Driver,
) -> Result<(), AllocError> {
    for order in &driver.orders() {
        push_order(alloc, out, order)?;
    }
    Ok(())
}

fn push_order(alloc: Global, out: &mut Vec<u8>, order: &Order) -> Result<(), AllocError> {
    match order {
        Order::Submit(node, note) => {
            let (word, node) = (word_of(note), node.value());
            out.extend_from_slice(format!(in alloc; " {word}@{node}")?.as_bytes())
        }
        Order::Write(number, bytes) => {
            out.extend_from_slice(format!(in alloc; " write@{number} ")?.as_bytes())?;
            push_text(out, bytes.as_slice())
        }
        Order::Close(number) => {
            out.extend_from_slice(format!(in alloc; " close@{number}")?.as_bytes())
        }
        Order::Connect => out.extend_from_slice(b" connect"),
        Order::Send(bytes) => {
            out.extend_from_slice(b" send ")?;
            push_text(out, bytes.as_slice())
        }
        Order::Disconnect => out.extend_from_slice(b" disconnect"),
        Order::Log(news) => {
            let node = match news.node() {
                Some(node) => node.value(),
                None => 0,
            };
            out.extend_from_slice(format!(in alloc; " news@{node} [{news}]")?.as_bytes())
        }
    }
}

fn word_of(note: &TowerNote) -> &'static str {
    match note {
        Note::Timeout(_) => "timeout",
        Note::Beat => "beat",
        Note::Ask(_) => "ask",
        Note::Opened => "opened",
        Note::Closed => "closed",
        Note::Heard(_, _) => "heard",
        Note::Claim => "claim",
        Note::Wake => "wake",
        Note::Restart => "restart",
        Note::End => "end",
    }
}
