//! The chat of a journal.
ghost use Rattle.std.specs.Prelude.{◌≡◌, ◌≢◌, [], false, map, List, ℕ, Ok, Err, IfErr, IfOk, OnOk};
ghost use Rattle.machine_laws.specs.Runs.{History, run};
ghost use Rattle.std.specs.Option.{option_map};
ghost use Rattle.journal_store.specs.Journals.{found};
ghost use Rattle.journal_store.specs.Payloads.{payloads};
ghost use Rattle.stable_store.specs.Stores.{nothing_saved};
ghost use Rattle.buffer_commands.specs.Settings as settings;
ghost use Rattle.buffer_machine.specs.Held.{commands};
ghost use Rattle.bouncer_tower.specs.Bodies.{TowerBody, plain};
ghost use Rattle.irc_line.specs.Lines.{Parts};
ghost use Rattle.chat_log.specs.Chats.{chat_text};
ghost use Rattle.chat_log.specs.Controls.{has_control, printed};
ghost use Rattle.chat_log.specs.Logs.{bodies, chat_of, plain_commands};
ghost use Rattle.chat_log.specs.Texts.{content};

use crate::chat::Chat;
use crate::choice::{Choice, Extent};
use crate::setup::ChatSetup;
use bouncer_tower::TowerBody;
use buffer_commands::Setup;
use irc_line::Name;
use journal_store::{JournalStore, MemoryDisk};
use machine_laws::{ApplyFault, Machine};
use raft_log::Log;
use request_once::Once;
use session_fence::Fence;
use stable_store::{Saved, Stable, StoreFault};
use std::alloc::{AllocError, Global};
use upstream_claim::Claims;
use wire_bytes::{Number, Wire};

/// The layers of the tower over the chat: requests take effect once, and lines are taken from the session in force.
type Told = Once<Claims<Fence<Chat>>>;

/// The text of a journal's chat, the oldest line first: all lines of an extent, or those that concern a target. The
/// setup of the bouncer is not known: the own nick is `me` until the server's welcome, and any number of clients may be
/// attached. What a terminal would obey is printed as a dot.
#[tactic(auto, using(crate::proofs::Obeyed::nothing_is_obeyed, crate::proofs::Obeyed::text_stays))]
pub fn chat_log(
    alloc: Global,
    journal: Vec<u8>,
    extent: Extent,
    target: Option<&Name>,
) -> Result<Vec<u8>, StoreFault>
    ensures text { IfOk result (λ v. chat_of extent (option_map (λ x. x.now) target.entry)
        (found (payloads (⟦<TowerBody as Wire>⟧.taken)) nothing_saved journal.items) ≡ Ok v.items) }
    ensures fault { IfErr result (λ e. e ≢ StoreFault.Memory
        → found (payloads (⟦<TowerBody as Wire>⟧.taken)) nothing_saved journal.items ≡ Err e) }
    ensures clean { (line : Parts) → has_control (printed (content line)) ≡ false }
    ensures kept { (bytes : List ℕ) → has_control bytes ≡ false → printed bytes ≡ bytes }
{
    let saved = saved_in::<TowerBody>(alloc, journal)?;
    let text = text_of(alloc, &saved, extent, target)?;
    Ok(text)
}

/// The state that a journal stands for.
fn saved_in<B: Wire>(alloc: Global, journal: Vec<u8>) -> Result<Saved<B>, StoreFault>
    ensures found { IfOk result
        (λ s. found (payloads B.taken) nothing_saved journal.items ≡ Ok s) }
    ensures fault { IfErr result (λ e. e ≢ StoreFault.Memory
        → found (payloads B.taken) nothing_saved journal.items ≡ Err e) }
{
    let disk = MemoryDisk::new(alloc, journal);
    match JournalStore::<B, MemoryDisk>::adopt(alloc, disk) {
        Ok(store) => match store.read() {
            Ok(saved) => Ok(saved),
            Err(_) => Err(StoreFault::Memory),
        },
        Err(fault) => Err(refusal(fault)),
    }
}

/// Why a disk in memory, on which no call fails, is refused.
fn refusal(fault: StoreFault) -> StoreFault
    ensures { result ≢ StoreFault.Memory → (result ≡ fault) × (fault ≢ StoreFault.Device) }
{
    match fault {
        StoreFault::Device => StoreFault::Memory,
        other => other,
    }
}

/// The text of the state that a journal stands for.
#[tactic(auto, using(crate::proofs::Told::same_text))]
fn text_of(
    alloc: Global,
    saved: &Saved<TowerBody>,
    extent: Extent,
    target: Option<&Name>,
) -> Result<Vec<u8>, AllocError>
    ensures { IfOk result (λ v. v.items ≡ chat_text settings.plain extent
        (option_map (λ x. x.now) target.entry) (plain_commands (bodies saved.now))) }
{
    let setup = setup_for(alloc, extent, target)?;
    let mut layers = Told::start(alloc, &setup)?;
    let text = tell(alloc, &mut layers, &saved.log)?;
    Ok(text)
}

/// The plain setup of the buffers, and the lines of an extent that concern a target.
fn setup_for(alloc: Global, extent: Extent, target: Option<&Name>) -> Result<ChatSetup, AllocError>
    ensures buffers { IfOk result (λ s. s.buffers ≡ settings.plain) }
    ensures extent { IfOk result (λ s. s.choice.extent ≡ extent) }
    ensures target { IfOk result (λ s. s.choice.target ≡ option_map (λ x. x.now) target.entry) }
{
    let target = match target {
        None => None,
        Some(name) => Some(name.copy(alloc)?),
    };
    Ok(ChatSetup {
        buffers: Setup::plain(alloc)?,
        choice: Choice { extent, target },
    })
}

/// Applies the bodies of a log, the first at place 1, to layers with an empty history, and copies the text.
fn tell(alloc: Global, layers: &mut Told, log: &Log<TowerBody>) -> Result<Vec<u8>, AllocError>
    ensures { (s : ChatSetup) → ⟦<Told as Machine>⟧.stands layers.old s []
        → IfOk result (λ v. v.items ≡ chat_text s.buffers s.choice.extent s.choice.target
        (plain_commands (map (λ e. e.body) log.now))) }
{
    match apply_all(layers, log) {
        Ok(()) => copied_text(alloc, layers),
        Err(_) => Err(AllocError),
    }
}

/// The text of the chat below the layers.
fn copied_text(alloc: Global, layers: &Told) -> Result<Vec<u8>, AllocError>
    ensures { (s : ChatSetup) (history : History TowerBody)
        → ⟦<Told as Machine>⟧.stands layers.now s history
        → IfOk result (λ v. v.items ≡ chat_text s.buffers s.choice.extent s.choice.target
        (commands (plain history))) }
{
    let chat = layers.machine().machine().machine();
    let copy = Vec::from_slice(alloc, chat.text())?;
    Ok(copy)
}

/// Applies the bodies of a log, the first at place 1, to a machine with an empty history. After an error the machine is
/// to be thrown away.
#[tactic(auto, using(crate::proofs::Comes::run_more))]
fn apply_all<M: Machine>(machine: &mut M, log: &Log<M::Command>) -> Result<(), ApplyFault>
    ensures { (s : M.Setup) → M.stands machine.old s []
        → OnOk result (M.stands machine.new s (run (map (λ e. e.body) log.now))) }
{
    for applied in 0..log.len().value() {
        let place = Number::new(applied + 1);
        machine.apply(place.value(), log.body(place).get())?;
    }
    Ok(())
}
