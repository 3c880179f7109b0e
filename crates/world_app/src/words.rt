//! The words and the classes of the picture's parts.
ghost use Rattle.std.specs.Prelude.{◌≡◌};
ghost use Rattle.world_app.specs.Words.{deed_of, deed_word, done_word, happening_class};
ghost use Rattle.world_app.specs.Words.{happening_front, kind_class, role_class, role_words};

use crate::kinds::{Deed, Happening, MessageKind};
use raft_log::Role;

/// The class of a role.
pub fn role_class(role: Role) -> &'static [u8]
    ensures { result.now ≡ role_class role }
{
    match role {
        Role::Follower => b"follower",
        Role::Candidate => b"candidate",
        Role::Leader => b"leader",
    }
}

/// The words for a node that takes a role, before its term.
pub fn role_words(role: Role) -> &'static [u8]
    ensures { result.now ≡ role_words role }
{
    match role {
        Role::Follower => b"follows in term ",
        Role::Candidate => b"candidate in term ",
        Role::Leader => b"leads in term ",
    }
}

/// The classes of a message.
pub fn kind_class(kind: MessageKind) -> &'static [u8]
    ensures { result.now ≡ kind_class kind }
{
    match kind {
        MessageKind::RequestVote => b"vote",
        MessageKind::Vote => b"vote",
        MessageKind::Denial => b"vote dashed",
        MessageKind::Append => b"append",
        MessageKind::Reply => b"append",
        MessageKind::Gap => b"forward dashed",
        MessageKind::Forward => b"forward",
    }
}

/// The class of an event's words.
pub fn happening_class(happening: Happening) -> &'static [u8]
    ensures { result.now ≡ happening_class happening }
{
    match happening {
        Happening::Does(_) => b"event",
        Happening::Restarts => b"stop",
        Happening::StopsBefore(_) => b"stop",
        Happening::StopsAfter(_) => b"stop",
    }
}

/// The words for an event, before the word of its input.
pub fn happening_front(happening: Happening) -> &'static [u8]
    ensures { result.now ≡ happening_front happening }
{
    match happening {
        Happening::Does(_) => b"",
        Happening::Restarts => b"restarts",
        Happening::StopsBefore(_) => b"stops before ",
        Happening::StopsAfter(_) => b"stops after ",
    }
}

/// The word of an event's input, if it has one.
pub fn happening_deed(happening: Happening) -> &'static [u8]
    ensures { result.now ≡ deed_of happening }
{
    match happening {
        Happening::Does(deed) => done_word(deed),
        Happening::Restarts => b"",
        Happening::StopsBefore(deed) => deed_word(deed),
        Happening::StopsAfter(deed) => deed_word(deed),
    }
}

/// The word of an input that was done: none for a delivery, since it has an arrow.
fn done_word(deed: Deed) -> &'static [u8]
    ensures { result.now ≡ done_word deed }
{
    match deed {
        Deed::Deliver => b"",
        other => deed_word(other),
    }
}

/// The word of an input.
fn deed_word(deed: Deed) -> &'static [u8]
    ensures { result.now ≡ deed_word deed }
{
    match deed {
        Deed::Timeout => b"timeout",
        Deed::Beat => b"beat",
        Deed::Deliver => b"deliver",
        Deed::Ask => b"ask",
        Deed::Opened => b"opened",
        Deed::Closed => b"closed",
        Deed::Heard => b"heard",
        Deed::Claim => b"claim",
        Deed::Apply => b"apply",
        Deed::Look => b"look",
    }
}
