//! The layers of a tower one by one, by examples, and their laws.
use crate::made::check_bytes;
use crate::tower::bodies::spelled;
use bouncer_tower::{
    a_blank_or_a_mark_changes_nothing, a_dropped_request_changes_nothing, each_line_is_handed_once,
};
use buffer_commands::{Action, Command, Setup};
use buffer_machine::{
    BufferMachine, a_detached_channel_is_not_shown, no_target_keeps_more_than_its_size,
    playing_leaves_nothing, who_is_not_attached_changes_nothing,
};
use machine_laws::{HasClients, HasSession, Machine};
use request_once::{Body, each_request_takes_effect_once};
use session_fence::{Fence, FenceCommand};
use std::alloc::Global;
use std::test::Fail;
use upstream_claim::{Claims, each_hand_is_a_claim, each_line_is_claimed_once};
use wire_bytes::{Number, SessionId};

/// The session of a machine after a command.
fn session_after<M: HasSession>(
    alloc: Global,
    setup: M::Setup,
    command: M::Command,
) -> Result<Option<SessionId>, Fail> {
    let mut machine = M::start(alloc, &setup)?;
    machine.apply(1, &command)?;
    Ok(machine.session())
}

/// The number of the line that is to be claimed next, without a request.
fn claim_of_none<M: HasSession>(alloc: Global, setup: M::Setup) -> Result<Option<u64>, Fail> {
    let mut claims = Claims::<M>::start(alloc, &setup)?;
    let gone = Claims::<M>::node_gone(2, Number::new(5));
    claims.apply(1, &gone)?;
    Ok(claims.next_claim())
}

#[test]
fn each_layer_stands_alone(rt: HostRuntime) -> Result<(), Fail> {
    let alloc = rt.alloc();
    let opened = FenceCommand::Opened(SessionId::new(1, 2));
    let session = session_after::<Fence<BufferMachine>>(alloc, Setup::plain(alloc)?, opened)?;
    assert!(rt; session == Some(SessionId::new(1, 2)));
    let claim = claim_of_none::<Fence<BufferMachine>>(alloc, Setup::plain(alloc)?)?;
    assert!(rt; claim.is_none());
    let gone: Body<Command, Action> = Body::Inner(BufferMachine::node_gone(2, Number::new(5)));
    let bytes = spelled(alloc, gone)?;
    check_bytes(&rt, &bytes, b"\0\x03\x02\0\0\0\0\0\0\0\x05");
    Ok(())
}

/// The laws of the layers over a machine with sessions.
fn call_laws_over<M: HasSession>() {
    each_line_is_claimed_once::<M>();
    each_hand_is_a_claim::<M>();
    each_request_takes_effect_once::<Claims<M>>();
}

/// The laws of the tower.
fn call_laws() {
    a_dropped_request_changes_nothing();
    a_blank_or_a_mark_changes_nothing();
}

/// The laws of the buffers.
fn call_laws_of_buffers() {
    no_target_keeps_more_than_its_size();
    a_detached_channel_is_not_shown();
    playing_leaves_nothing();
    who_is_not_attached_changes_nothing();
}

#[test]
fn the_laws_can_be_called(_rt: HostRuntime) -> Result<(), Fail> {
    call_laws_over::<Fence<BufferMachine>>();
    call_laws();
    call_laws_of_buffers();
    each_line_is_handed_once();
    Ok(())
}
