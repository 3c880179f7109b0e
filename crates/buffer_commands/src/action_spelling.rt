//! Actions as bytes: a kind byte, followed by the fields of that kind.
ghost use Rattle.std.specs.Prelude.{◌≡◌, ◌≢◌, ◌≤◌, drop, length, vec_capacity, IfOk, IfErr, IsTrue, OnErr, Ok, Err};
ghost use Rattle.irc_line.specs.Lines.{LacksRoom};
ghost use Rattle.irc_line.specs.Names.{is_name, is_text};
ghost use Rattle.wire_bytes.specs.Contents.{line};
ghost use Rattle.wire_bytes.specs.Wants.{once_whole};
ghost use Rattle.wire_bytes.specs.Fields.{appended, behind};
ghost use Rattle.buffer_commands.specs.Spellings.{FitsAction, said, say_taken, say_wants, set_buffer_taken, set_buffer_wants, pass_taken};

use crate::buffer_size::BufferSize;
use crate::channel_name::ChannelName;
use crate::command::{Action, Verb};
use crate::fields::{put_kind, put_two};
use crate::wire_line::WireLine;
use irc_line::{Name, Text};
use std::alloc::{AllocError, Global};
use wire_bytes::{Wire, WireFault, take_behind, undo};

impl Action {
    /// Does nothing. An action always has a spelling, since its types keep its limits.
    pub fn fits(&self)
        ensures { FitsAction self.now }
    {
        match self {
            Action::Say(_, target, text) => {
                target.as_bytes();
                text.as_bytes();
            }
            Action::Join(channel)
            | Action::Part(channel)
            | Action::Detach(channel)
            | Action::Reattach(channel) => {
                channel.name();
            }
            Action::Attach(Some(name)) | Action::Play(name) | Action::Clear(name) => {
                name.as_bytes();
            }
            Action::SetBuffer(target, size) => {
                target.as_bytes();
                size.lines();
            }
            Action::Pass(line) => {
                line.fits();
            }
            _ => {}
        }
    }
}

/// Attach without a name is 1, Leave 2, Say 3 with verb, target and text, Join 4, Part 5, Detach 6 and Reattach 7 with
/// their channel, Play 8 and Clear 9 with their target, ClearChannels 10, ClearQueries 11, ClearAll 12, SetBuffer 13
/// with its target and size, Pass 14 with its line, and Attach with a name 15.
impl Wire for Action {
    ghost use Rattle.buffer_commands.specs.Spellings.{spelled_action, FitsAction, action, action_wants};
    ghost use Rattle.buffer_commands.specs.ActionCodec.{action_is_codec};

    ghost spelled = { spelled_action };

    ghost fits = { FitsAction };

    ghost taken = { action };

    ghost wants = { action_wants };

    #[tactic(auto, unfolding(crate::specs::Spellings::spelled_action))]
    fn put(&self, out: &mut Vec<u8>) -> Result<(), AllocError> {
        let len = out.len();
        match self {
            Action::Attach(None) => Ok(out.push(1)?),
            Action::Attach(Some(id)) => put_kind(out, 15, id),
            Action::Leave => Ok(out.push(2)?),
            Action::Say(verb, target, text) => {
                out.push(3)?;
                let outcome = put_said(out, *verb, target, text);
                undo(out, len, outcome)
            }
            Action::Join(channel) => put_kind(out, 4, channel),
            Action::Part(channel) => put_kind(out, 5, channel),
            Action::Detach(channel) => put_kind(out, 6, channel),
            Action::Reattach(channel) => put_kind(out, 7, channel),
            Action::Play(target) => put_kind(out, 8, target),
            Action::Clear(target) => put_kind(out, 9, target),
            Action::ClearChannels => Ok(out.push(10)?),
            Action::ClearQueries => Ok(out.push(11)?),
            Action::ClearAll => Ok(out.push(12)?),
            Action::SetBuffer(target, size) => {
                out.push(13)?;
                let outcome = put_two(out, target, size);
                undo(out, len, outcome)
            }
            Action::Pass(line) => put_kind(out, 14, line),
        }
    }

    #[tactic(auto, using(wire_bytes::proofs::Steps::composed), unfolding(crate::specs::Spellings::action))]
    fn take(alloc: Global, input: &[u8]) -> Result<(Self, usize), WireFault> {
        match input {
            [] => Err(WireFault::Short),
            [1, ..] => Ok((Action::Attach(None), 1)),
            [2, ..] => Ok((Action::Leave, 1)),
            [3, ..] => take_say(alloc, input),
            [4, ..] => {
                let (channel, end) = take_behind::<ChannelName>(alloc, input, 1)?;
                Ok((Action::Join(channel), end))
            }
            [5, ..] => {
                let (channel, end) = take_behind::<ChannelName>(alloc, input, 1)?;
                Ok((Action::Part(channel), end))
            }
            [6, ..] => {
                let (channel, end) = take_behind::<ChannelName>(alloc, input, 1)?;
                Ok((Action::Detach(channel), end))
            }
            [7, ..] => {
                let (channel, end) = take_behind::<ChannelName>(alloc, input, 1)?;
                Ok((Action::Reattach(channel), end))
            }
            [8, ..] => {
                let (target, end) = take_behind::<Name>(alloc, input, 1)?;
                Ok((Action::Play(target), end))
            }
            [9, ..] => {
                let (target, end) = take_behind::<Name>(alloc, input, 1)?;
                Ok((Action::Clear(target), end))
            }
            [10, ..] => Ok((Action::ClearChannels, 1)),
            [11, ..] => Ok((Action::ClearQueries, 1)),
            [12, ..] => Ok((Action::ClearAll, 1)),
            [13, ..] => take_set_buffer(alloc, input),
            [14, ..] => take_pass(alloc, input),
            [15, ..] => {
                let (id, end) = take_behind::<Name>(alloc, input, 1)?;
                Ok((Action::Attach(Some(id)), end))
            }
            _ => Err(WireFault::Bad(0)),
        }
    }

    ghost is_codec = { action_is_codec };
}

/// Appends the fields of a Say, or leaves the items as they were.
fn put_said(out: &mut Vec<u8>, verb: Verb, target: &Name, text: &Text) -> Result<(), AllocError>
    requires target { IsTrue (is_name target.now) }
    requires text { IsTrue (is_text text.now) }
    ensures items { out.new.items ≡ appended result out.old.items (said verb target.now text.now) }
    ensures full { OnErr result (LacksRoom out.old (length (said verb target.now text.now))) }
    ensures capacity { vec_capacity out.old ≤ vec_capacity out.new }
{
    let len = out.len();
    put_two(out, &verb, target)?;
    let outcome = text.put(out);
    undo(out, len, outcome)
}

/// A Say after its kind byte.
#[tactic(auto, using(wire_bytes::proofs::Steps::composed))]
fn take_say(alloc: Global, input: &[u8]) -> Result<(Action, usize), WireFault>
    requires { 1 ≤ length input.now }
    ensures ok { IfOk result (λ r. behind 1 say_taken input.now ≡ Ok (r.0, r.1)) }
    ensures err { IfErr result (λ e. e ≢ WireFault.Memory → behind 1 say_taken input.now ≡ Err e) }
    ensures memory { IfErr result (λ e. e ≡ WireFault.Memory →
        IsTrue (say_wants (drop 1 input.now))) }
{
    let (((verb, target), text), end) = take_behind::<((Verb, Name), Text)>(alloc, input, 1)?;
    Ok((Action::Say(verb, target, text), end))
}

/// A SetBuffer after its kind byte.
#[tactic(auto, using(wire_bytes::proofs::Steps::composed))]
fn take_set_buffer(alloc: Global, input: &[u8]) -> Result<(Action, usize), WireFault>
    requires { 1 ≤ length input.now }
    ensures ok { IfOk result (λ r. behind 1 set_buffer_taken input.now ≡ Ok (r.0, r.1)) }
    ensures err { IfErr result (λ e. e ≢ WireFault.Memory →
        behind 1 set_buffer_taken input.now ≡ Err e) }
    ensures memory { IfErr result (λ e. e ≡ WireFault.Memory →
        IsTrue (set_buffer_wants (drop 1 input.now))) }
{
    let ((target, size), end) = take_behind::<(Name, BufferSize)>(alloc, input, 1)?;
    Ok((Action::SetBuffer(target, size), end))
}

/// A Pass after its kind byte.
#[tactic(auto, using(wire_bytes::proofs::Steps::composed))]
fn take_pass(alloc: Global, input: &[u8]) -> Result<(Action, usize), WireFault>
    requires { 1 ≤ length input.now }
    ensures ok { IfOk result (λ r. behind 1 pass_taken input.now ≡ Ok (r.0, r.1)) }
    ensures err { IfErr result (λ e. e ≢ WireFault.Memory → behind 1 pass_taken input.now ≡ Err e) }
    ensures memory { IfErr result (λ e. e ≡ WireFault.Memory →
        IsTrue (once_whole line (drop 1 input.now))) }
{
    let (line, end) = take_behind::<WireLine>(alloc, input, 1)?;
    Ok((Action::Pass(line), end))
}
