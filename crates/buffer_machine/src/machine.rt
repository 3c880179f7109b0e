ghost use Rattle.std.specs.Prelude.{◌≡◌, ◌<◌, ◌∷◌, ◌↔◌, false, map, IfErr, IfOk, IsErr, IsOk, IsTrue, OnErr, OnOk};
ghost use Rattle.irc_line.specs.Lines.{spelling};
ghost use Rattle.irc_line.specs.Names.{fold_name};
ghost use Rattle.machine_laws.specs.Runs.{History};
ghost use Rattle.buffer_commands.specs.Settings.{Settings};
ghost use Rattle.buffer_machine.specs.Buffers.{nick, playback};
ghost use Rattle.buffer_machine.specs.Crowd.{attached, floor};
ghost use Rattle.buffer_machine.specs.Effects.{TakesNone};
ghost use Rattle.buffer_machine.specs.Held.{IsSound, commands, held};
ghost use Rattle.buffer_machine.specs.Machine.{held_of};
ghost use Rattle.buffer_machine.specs.Messages.{is_among};
ghost use Rattle.buffer_machine.specs.Answering.{played_of, target_of_key};

use crate::buffers::Buffers;
use crate::floors::{Floors, floor_of};
use crate::step::step;
use buffer_commands::{Action, Command, Effect, Setup};
use buffer_lines::{Offset, Shown};
use buffer_targets::{Channel, Target};
use irc_line::Name;
use machine_laws::{ApplyFault, HasClients, Machine};
use std::alloc::{AllocError, Global};
use wire_bytes::{Copied, Moment, Number, Origin};

/// The buffers of a bouncer: the own nick, which clients are attached, and what each channel and query keeps for those that
/// are away.
#[derive(Drop)]
pub struct BufferMachine {
    alloc: Global,
    setup: Setup,
    floors: Floors,
    buffers: Buffers,
    spoilt: bool,
}

impl BufferMachine {
    ghost use Rattle.buffer_machine.specs.Machine.{Stands};

    /// What is kept of a target, between its frame lines; nothing for an unknown one. It empties nothing.
    pub fn playback(&self, target: &Name) -> Result<Vec<Shown>, AllocError>
        ensures { (s : Settings) (history : History Command) → Stands self.now s history
            → IfOk result (λ v. v.items ≡
            map spelling (playback s (commands history) (fold_name target.now))) }
    {
        played_at(self.alloc, self.setup.offset(), &self.buffers, target)
    }

    /// The own nick.
    pub fn nick(&self) -> &Name
        ensures { (s : Settings) (history : History Command) → Stands self.now s history
            → result.now ≡ nick s (commands history) }
    {
        &self.buffers.nick
    }

    /// Whether a client is attached.
    pub fn is_attached(&self, client: Origin) -> bool
        ensures { (s : Settings) (history : History Command) → Stands self.now s history
            → result ≡ is_among client (attached s (commands history)) }
    {
        self.buffers.clients.is_attached(client)
    }

    /// The clients that are attached, in the order in which they attached.
    pub fn clients(&self) -> &[Origin]
        ensures { (s : Settings) (history : History Command) → Stands self.now s history
            → result.now ≡ (held s (commands history)).clients }
    {
        self.buffers.clients.as_slice()
    }

    /// The names that clients gave when they attached, in the order in which they first came.
    pub fn ids(&self) -> &[Name]
        ensures { (s : Settings) (history : History Command) → Stands self.now s history
            → result.now ≡ (held s (commands history)).names.ids }
    {
        self.buffers.names.ids()
    }

    /// The attached clients that have a name, in the order in which they attached, each with the place of its name.
    pub fn holders(&self) -> &[(Origin, usize)]
        ensures { (s : Settings) (history : History Command) → Stands self.now s history
            → result.now ≡ (held s (commands history)).names.holders }
    {
        self.buffers.names.holders()
    }

    /// The channels, in the order of their keys.
    pub fn channels(&self) -> &[Channel]
        ensures { (s : Settings) (history : History Command) → Stands self.now s history
            → result.now ≡ (held s (commands history)).channels }
    {
        self.buffers.channels.as_slice()
    }

    /// The queries, in the order in which they were made.
    pub fn queries(&self) -> &[Target]
        ensures { (s : Settings) (history : History Command) → Stands self.now s history
            → result.now ≡ (held s (commands history)).queries }
    {
        self.buffers.queries.as_slice()
    }

    /// The floor of a node: its runs below it are gone.
    pub fn floor(&self, node: u8) -> u64
        ensures { (s : Settings) (history : History Command) → Stands self.now s history
            → node < 8 → result ≡ floor (commands history) node }
    {
        floor_of(&self.floors, node)
    }
}

/// What is played of the target of a name.
fn played_at(
    alloc: Global,
    offset: Offset,
    buffers: &Buffers,
    name: &Name,
) -> Result<Vec<Shown>, AllocError>
    ensures { IfOk result (λ v. v.items ≡ map spelling
        (played_of offset (target_of_key (fold_name name.now) (held_of buffers.now)))) }
{
    match buffers.target(name) {
        Some(target) => target.lines().play(offset, target.name().as_bytes()),
        None => Ok(Vec::new(alloc)),
    }
}

impl Machine for BufferMachine {
    ghost use Rattle.buffer_machine.specs.Machine.{Stands, effects_at};

    type Setup = Setup;

    type Command = Command;

    type Effect = Effect;

    ghost stands = { Stands };

    ghost effects = { effects_at };

    ghost spoilt = { λ m. m.spoilt };

    fn start(alloc: Global, setup: &Setup) -> Result<Self, AllocError> {
        keeps_its_limits(setup);
        let buffers = Buffers::new(alloc, setup)?;
        Ok(BufferMachine {
            alloc,
            setup: setup.copy(alloc)?,
            floors: [0; 8],
            buffers,
            spoilt: false,
        })
    }

    /// The end of the upstream, a node that is gone, and Leave of an attached client allocate nothing.
    fn apply(&mut self, place: u64, command: &Command) -> Result<Vec<Effect>, ApplyFault>
        ensures stands { (s : Settings) (earlier : History Command) → Stands self.old s earlier
            → OnOk result (Stands self.new s ((place, command.now) ∷ earlier)) }
        ensures effects { (s : Settings) (earlier : History Command) → Stands self.old s earlier
            → IfOk result (λ es. es.items ≡ effects_at s earlier place command.now) }
        ensures fault { IfErr result (λ e. (e ≡ ApplyFault.Spoilt) ↔ IsTrue self.old.spoilt) }
        ensures refuses { IsTrue self.old.spoilt → IsErr result }
        ensures whole { OnOk result (self.new.spoilt ≡ false) }
        ensures spoils { OnErr result (IsTrue self.new.spoilt) }
        ensures memory { (s : Settings) (earlier : History Command) → Stands self.old s earlier
            → TakesNone (attached s (commands earlier)) command.now → IsOk result }
    {
        if self.spoilt {
            return Err(ApplyFault::Spoilt);
        }
        let outcome = step(
            self.alloc,
            &self.setup,
            &mut self.floors,
            &mut self.buffers,
            command,
        );
        match outcome {
            Ok(effects) => Ok(effects),
            Err(_) => {
                self.spoilt = true;
                Err(ApplyFault::Memory)
            }
        }
    }

    ghost stands_whole = { λ m s history h. h.whole };
}

/// What holds of every setup.
fn keeps_its_limits(setup: &Setup)
    ensures { IsSound setup.now }
{
    setup.channels();
    setup.most_queries();
}

impl HasClients for BufferMachine {
    ghost use Rattle.buffer_commands.specs.declared.command.Command.TheVariants.{Client, NodeGone};

    type Action = Action;

    ghost client = { Client };

    ghost node_gone = { NodeGone };

    fn client(
        alloc: Global,
        origin: Origin,
        at: Moment,
        action: &Action,
    ) -> Result<Command, AllocError> {
        Ok(Command::Client(origin, at, action.copy(alloc)?))
    }

    fn node_gone(node: u8, floor: Number) -> Command {
        Command::NodeGone(node, floor)
    }
}
