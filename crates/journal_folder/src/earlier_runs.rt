//! What a list says about a node's runs.
ghost use Rattle.std.specs.Prelude.{◌≡◌, ◌≤◌};
ghost use Rattle.std.specs.List.{All};
ghost use Rattle.journal_folder.specs.Runs.{boot_in, boot_in_claims, boot_in_command, boot_in_session, boot_of};
ghost use Rattle.journal_folder.specs.Runs.{greatest_boot, last_run, run_in};
ghost use Rattle.journal_folder.specs.Runs.{is_floor, is_floor_claims, is_floor_command, is_floor_session};
ghost use Rattle.wire_bytes.specs.Limits.{number_limit};

use bouncer_tower::TowerBody;
use buffer_commands::{Command, WireLine};
use raft_log::{Log, NodeId};
use request_once::Body;
use session_fence::FenceCommand;
use upstream_claim::ClaimsCommand;
use wire_bytes::{Number, Origin};

/// The greatest boot of a node that the entries of a log mention, 0 if they mention none.
#[tactic(auto, using(crate::proofs::Greatest::one_more, crate::proofs::Greatest::none_is_later))]
pub fn greatest_boot(node: NodeId, log: &Log<TowerBody>) -> u64
    ensures greatest { result ≡ greatest_boot node log.now }
    ensures none_is_later { All (λ e. boot_in node e.body ≤ result) log.now }
    ensures limit { result ≤ number_limit }
{
    let mut greatest = 0u64;
    for before in 0..log.len().value() {
        let body = log.body(Number::new(before + 1));
        greatest = greatest.max(boot_in(node, body.get()));
    }
    greatest
}

/// The last run of a node that has begun according to the entries of a log, 0 if there is none.
#[tactic(auto, using(crate::proofs::Last::one_more))]
pub fn last_run(node: NodeId, log: &Log<TowerBody>) -> u64
    ensures last { result ≡ last_run node log.now }
    ensures limit { result ≤ number_limit }
{
    let mut last = 0u64;
    for before in 0..log.len().value() {
        let body = log.body(Number::new(before + 1));
        last = last.max(run_in(node, body.get()));
    }
    last
}

/// The run of a node that has begun according to a body, 0 if there is none.
fn run_in(node: NodeId, body: &TowerBody) -> u64
    ensures run { result ≡ run_in node body.now }
    ensures limit { result ≤ number_limit }
{
    let boot = boot_in(node, body);
    if is_floor(body) {
        // a run of the floor itself may never begin
        boot.saturating_sub(1)
    } else {
        boot
    }
}

/// Whether a body says that runs of a node below a floor are gone.
fn is_floor(body: &TowerBody) -> bool
    ensures { result ≡ is_floor body.now }
{
    match body {
        Body::Inner(command) => is_floor_claims(command),
        Body::Asked(_, _, _, _) | Body::Blank | Body::Mark(_) => false,
    }
}

fn is_floor_claims(command: &ClaimsCommand<FenceCommand<Command, WireLine>>) -> bool
    ensures { result ≡ is_floor_claims command.now }
{
    match command {
        ClaimsCommand::Inner(command) => is_floor_session(command),
        ClaimsCommand::Claim(_, _) => false,
    }
}

fn is_floor_session(command: &FenceCommand<Command, WireLine>) -> bool
    ensures { result ≡ is_floor_session command.now }
{
    match command {
        FenceCommand::Inner(command) => is_floor_command(command),
        FenceCommand::Opened(_) | FenceCommand::Shut(_) | FenceCommand::Heard(_, _, _, _) => false,
    }
}

fn is_floor_command(command: &Command) -> bool
    ensures { result ≡ is_floor_command command.now }
{
    match command {
        Command::NodeGone(_, _) => true,
        _ => false,
    }
}

/// The boot of a node that a body mentions, 0 if it mentions none.
pub fn boot_in(node: NodeId, body: &TowerBody) -> u64
    ensures boot { result ≡ boot_in node body.now }
    ensures limit { result ≤ number_limit }
{
    match body {
        Body::Inner(command) => boot_in_claims(node, command),
        Body::Asked(origin, _, _, _) => boot_of(node, *origin),
        Body::Blank => 0,
        Body::Mark(mark) => if mark.node == node.value() {
            mark.boot.value()
        } else {
            0
        },
    }
}

/// The boot of a client, if it is of this node.
fn boot_of(node: NodeId, origin: Origin) -> u64
    ensures boot { result ≡ boot_of node origin }
    ensures limit { result ≤ number_limit }
{
    if origin.node() == node.value() {
        origin.boot()
    } else {
        0
    }
}

fn boot_in_claims(node: NodeId, command: &ClaimsCommand<FenceCommand<Command, WireLine>>) -> u64
    ensures boot { result ≡ boot_in_claims node command.now }
    ensures limit { result ≤ number_limit }
{
    match command {
        ClaimsCommand::Inner(command) => boot_in_session(node, command),
        ClaimsCommand::Claim(_, _) => 0,
    }
}

fn boot_in_session(node: NodeId, command: &FenceCommand<Command, WireLine>) -> u64
    ensures boot { result ≡ boot_in_session node command.now }
    ensures limit { result ≤ number_limit }
{
    match command {
        FenceCommand::Inner(command) => boot_in_command(node, command),
        FenceCommand::Opened(_) | FenceCommand::Shut(_) | FenceCommand::Heard(_, _, _, _) => 0,
    }
}

/// The floor below which runs of the node are gone is a boot that it may have had.
fn boot_in_command(node: NodeId, command: &Command) -> u64
    ensures boot { result ≡ boot_in_command node command.now }
    ensures limit { result ≤ number_limit }
{
    match command {
        Command::Client(origin, _, _) => boot_of(node, *origin),
        Command::NodeGone(gone, floor) if *gone == node.value() => floor.value(),
        _ => 0,
    }
}
