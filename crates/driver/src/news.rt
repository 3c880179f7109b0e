//! What is logged for the operator.
ghost use Rattle.std.specs.Prelude.{◌≡◌};
ghost use Rattle.driver.specs.Links.{end_of, is_failure};
ghost use Rattle.driver.specs.Missing.{words_of};
ghost use Rattle.driver.specs.Operators.{node_of};

use crate::eviction::Eviction;
use crate::level::Level;
use irc_line::Name;
use raft_log::NodeId;
use raft_node::Cause;
use std::fmt;
use std::str::from_utf8;
use wire_bytes::{Number, Origin};

/// Why a connection to the server ended, or was not made.
#[derive(Clone, Copy)]
pub enum Ending {
    /// Nothing accepts connections at the server's address.
    Refused,
    /// There is no route to the server's machine.
    Unreachable,
    /// The server closed it.
    ByServer,
    /// It broke, or could not be made, for another reason.
    Lost,
    /// The server was silent for too long.
    Silent,
    /// Its node no longer leads.
    LedNoMore,
}

impl Ending {
    /// The reason in words.
    pub fn words(self) -> &'static str
        ensures { result.now ≡ words_of self }
    {
        match self {
            Ending::Refused => "the connection was refused",
            Ending::Unreachable => "there is no way to the server",
            Ending::ByServer => "the server closed the connection",
            Ending::Lost => "no connection",
            Ending::Silent => "the server is silent",
            Ending::LedNoMore => "the node leads no more",
        }
    }

    /// Whether it counts as a failure, after which the wait for the next try grows.
    pub fn is_failure(self) -> bool
        ensures { result ≡ is_failure self }
    {
        match self {
            Ending::LedNoMore => false,
            Ending::Refused | Ending::Unreachable | Ending::ByServer => true,
            Ending::Lost | Ending::Silent => true,
        }
    }
}

impl fmt::Display for Ending {
    fn fmt<W: fmt::Write>(&self, f: &mut fmt::Formatter<W>) -> fmt::Result {
        f.write_str(self.words())
    }
}

/// What is logged for the operator, a line each: never a password, nor the text of a message.
#[derive(Drop)]
pub enum News {
    /// A client registered at its node, with this name if it gave one.
    Attached(Origin, Option<Name>),
    /// A client's connection is gone.
    Left(Origin),
    /// The buffers close a client, and why.
    Evicted(Origin, Eviction),
    /// A channel is not joined in this node's session, for the reason of this number.
    NotJoined(NodeId, u64),
    /// A node leads, in this term.
    Elected(NodeId, Number),
    /// The server took the session of the node that leads.
    Opened(NodeId),
    /// The server did not give a session, and why.
    Unopened(NodeId, Ending),
    /// The session is over, and why.
    Closed(NodeId, Ending),
    /// A node is down.
    Down(NodeId, Cause),
    /// A node is up, in its run of this number.
    Up(NodeId, Number),
    /// A node has not answered for too long, while others work.
    Hangs(NodeId),
    /// A node that hung answers again.
    Answers(NodeId),
    /// Fewer nodes than a majority answer, so nothing is agreed.
    TooFew,
    /// A majority answers again.
    Enough,
    /// A client connected to a node that is not up.
    TurnedAway(NodeId),
    /// The log of the leading node has reached this level.
    LogFills(NodeId, Level),
    /// A client came with a wrong password, or with none: one of the first of a minute.
    WrongPassword(Origin),
    /// This many more clients sent a wrong password in a minute.
    WrongPasswords(u64),
}

impl News {
    /// What is logged when an open connection ends: the end of its session, or that none was given.
    pub fn of_end(was_given: bool, node: NodeId, why: Ending) -> News
        ensures { result ≡ end_of was_given node why }
    {
        if was_given {
            News::Closed(node, why)
        } else {
            News::Unopened(node, why)
        }
    }

    /// The node that it is about, if it is about one.
    pub fn node(&self) -> Option<NodeId>
        ensures { result ≡ node_of self.now }
    {
        match self {
            News::Attached(origin, _) | News::Left(origin) => { Some(NodeId::new(origin.node())) }
            News::Evicted(origin, _) => Some(NodeId::new(origin.node())),
            News::Elected(node, _) | News::Opened(node) => Some(*node),
            News::NotJoined(node, _) => Some(*node),
            News::Unopened(node, _) | News::Closed(node, _) => Some(*node),
            News::Down(node, _) | News::Up(node, _) => Some(*node),
            News::Hangs(node) | News::Answers(node) => Some(*node),
            News::TurnedAway(node) | News::LogFills(node, _) => Some(*node),
            News::WrongPassword(origin) => Some(NodeId::new(origin.node())),
            News::TooFew | News::Enough | News::WrongPasswords(_) => None,
        }
    }
}

impl fmt::Display for News {
    fn fmt<W: fmt::Write>(&self, f: &mut fmt::Formatter<W>) -> fmt::Result {
        match self {
            News::Attached(origin, None) => write!(f, "client {} attached", origin.client()),
            News::Attached(origin, Some(name)) => {
                write!(
                    f,
                    "client {} attached as {}",
                    origin.client(),
                    text_of(name)
                )
            }
            News::Left(origin) => write!(f, "client {} left", origin.client()),
            News::Evicted(origin, why) => {
                write!(f, "client {} is closed: {why}", origin.client())
            }
            News::NotJoined(_, _) => write!(f, "a channel is not joined"),
            News::Elected(_, term) => write!(f, "leads in term {}", term.value()),
            News::Opened(_) => write!(f, "upstream opened"),
            News::Unopened(_, why) => write!(f, "upstream not opened: {why}"),
            News::Closed(_, why) => write!(f, "upstream closed: {why}"),
            News::Down(_, cause) => write!(f, "down: {cause}"),
            News::Up(_, boot) => write!(f, "up, run {}", boot.value()),
            News::Hangs(_) => write!(f, "does not answer: its clients are closed"),
            News::Answers(_) => write!(f, "answers again"),
            News::TooFew => write!(
                f,
                "too few nodes are up: nothing is shown or sent until more are"
            ),
            News::Enough => write!(f, "enough nodes are up again"),
            News::TurnedAway(_) => write!(f, "client turned away: the node is down"),
            News::LogFills(_, Level::Full) => {
                write!(
                    f,
                    "the log is full: nothing new is taken: run bouncer renew"
                )
            }
            News::LogFills(_, Level::NearlyFull) => {
                write!(f, "the log is 95 percent full: run bouncer renew")
            }
            News::LogFills(_, Level::Filling) => {
                write!(f, "the log is 80 percent full: run bouncer renew")
            }
            News::LogFills(_, Level::Roomy) => write!(f, "the log has room"),
            News::WrongPassword(origin) => {
                write!(f, "wrong password: client {} is refused", origin.client())
            }
            News::WrongPasswords(count) => {
                write!(
                    f,
                    "wrong passwords: {count} more clients in the last minute"
                )
            }
        }
    }
}

/// A name as text, if it is text.
fn text_of(name: &Name) -> &str {
    from_utf8(name.as_bytes()).unwrap_or("one that is no text")
}
