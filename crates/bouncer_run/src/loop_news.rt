//! What the loop logs, and what it sends to clients.
ghost use Rattle.std.specs.Prelude.{◌≡◌, [], OnOk};
ghost use Rattle.bouncer_run.specs.Deliveries.{AreDone};
ghost use Rattle.bouncer_run.specs.Responses.{AreNotified, HearsNews, NotesIf, why_absent};

use crate::edge_news::EdgeNews;
use crate::event_loop::LoopFault;
use crate::gone::tell_gone;
use crate::operator::Operator;
use crate::reasons::shown;
use crate::sockets::Sockets;
use driver::{Driver, News, Now};
use raft_log::NodeId;
use std::alloc::Global;
use wire_bytes::Copied;

/// News are logged, and go to the clients whom they concern.
pub fn tell_news<O: Operator>(
    now: &Now,
    driver: &mut Driver,
    sockets: &mut Sockets,
    operator: &mut O,
    news: News,
) -> Result<(), LoopFault>
    ensures clients { AreDone [] sockets.old sockets.new }
    ensures server { sockets.new.server ≡ sockets.old.server }
    ensures heard { OnOk result (HearsNews news driver.old driver.new) }
{
    if let News::NotJoined(node, number) = news {
        return tell_absent(now, driver, sockets.alloc, operator, node, number);
    }
    tell_clients(sockets.alloc, driver, &news)?;
    if let News::Attached(origin, _) = &news {
        sockets.register(origin.client());
    }
    let opened = match &news {
        News::Opened(node) => Some(*node),
        _ => None,
    };
    tell_operator(now, sockets, operator, news);
    // what its welcome said of the nick was heard meanwhile
    if let Some(node) = opened {
        let nick = driver.nick().copy(sockets.alloc)?;
        operator.hear_edge(now, EdgeNews::Nick(node, nick));
    }
    Ok(())
}

/// That a channel is not joined, for the reason of this number, is logged and sent to clients.
fn tell_absent<O: Operator>(
    now: &Now,
    driver: &mut Driver,
    alloc: Global,
    operator: &mut O,
    node: NodeId,
    number: u64,
) -> Result<(), LoopFault>
    ensures { OnOk result (NotesIf (why_absent number driver.old) driver.old driver.new) }
{
    if let Some(text) = driver.why_not_joined(number)? {
        driver.notice(text.as_slice())?;
        let text = shown(alloc, text.as_slice())?;
        operator.hear_edge(now, EdgeNews::NotJoined(node, text));
    }
    Ok(())
}

/// Logs news, and the address of a client that came with a wrong password.
fn tell_operator<O: Operator>(now: &Now, sockets: &Sockets, operator: &mut O, news: News) {
    if let News::WrongPassword(origin) = news {
        if let Some(wrong) = sockets.wrong_password(origin.client()) {
            return operator.hear_edge(now, wrong);
        }
    }
    operator.hear(now, news);
}

/// Clients get a notice that the server is connected, or gone.
fn tell_clients(alloc: Global, driver: &mut Driver, news: &News) -> Result<(), LoopFault>
    ensures { OnOk result (AreNotified news.now driver.old driver.new) }
{
    match news {
        News::Opened(_) => driver.notice(b"Connected to the server.")?,
        News::Closed(_, _) => tell_gone(alloc, driver)?,
        _ => {}
    }
    Ok(())
}

/// What happened at the sockets is logged.
pub fn tell_edge<O: Operator>(now: &Now, sockets: &mut Sockets, operator: &mut O) {
    for news in sockets.news() {
        operator.hear_edge(now, news);
    }
}
