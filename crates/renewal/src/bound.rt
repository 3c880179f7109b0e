//! How many bodies a new list may have.
ghost use Rattle.std.specs.Prelude.{◌≡◌, ◌≤◌, ◌+◌, ◌*◌, length, min};
ghost use Rattle.machine_laws.specs.Runs.{History};
ghost use Rattle.buffer_commands.specs.Settings.{Settings};
ghost use Rattle.buffer_commands.specs.declared.command.Command.{Command};
ghost use Rattle.buffer_machine.specs.Held.{commands, held};
ghost use Rattle.buffer_machine.specs.Machine.{Stands};
ghost use Rattle.renewal.specs.Bounds.{greatest_count, lines_of_channels, lines_of_queries, most_bodies, most_of};

use buffer_machine::BufferMachine;
use buffer_targets::{Channel, Target};

/// The most bodies that bring about what the buffers hold; `others` are those for each channel of the setup, each line
/// that waits and each node.
pub fn most_bodies(buffers: &BufferMachine, others: usize) -> usize
    ensures { (s : Settings) (h : History Command) → Stands buffers.now s h
        → result ≤ most_bodies (held s (commands h)) others }
{
    let (channels, queries) = (buffers.channels(), buffers.queries());
    most_of(
        kept_in_channels(channels),
        kept_in_queries(queries),
        channels.len(),
        queries.len(),
        buffers.ids().len(),
        others,
    )
}

/// The most bodies, counted for each line, each channel, each query, each name, and each name and channel.
fn most_of(
    channel_lines: usize,
    query_lines: usize,
    channels: usize,
    queries: usize,
    names: usize,
    others: usize,
) -> usize
    ensures { result ≤ most_of (channel_lines + query_lines) channels queries names others }
{
    let lines = channel_lines.saturating_add(query_lines).saturating_mul(5);
    let targets = channels
        .saturating_mul(12)
        .saturating_add(queries.saturating_mul(2));
    let marks = names.saturating_mul(channels).saturating_mul(2);
    lines
        .saturating_add(targets)
        .saturating_add(marks)
        .saturating_add(names.saturating_mul(4))
        .saturating_add(others)
        .saturating_add(12)
}

/// How many lines are kept of the channels.
pub fn kept_in_channels(channels: &[Channel]) -> usize
    ensures { result ≡ min (lines_of_channels channels.now) greatest_count }
{
    match channels {
        [] => 0,
        [channel, channels @ ..] => channel
            .target()
            .lines()
            .count()
            .saturating_add(kept_in_channels(channels)),
    }
}

/// How many lines are kept of the queries.
pub fn kept_in_queries(queries: &[Target]) -> usize
    ensures { result ≡ min (lines_of_queries queries.now) greatest_count }
{
    match queries {
        [] => 0,
        [query, queries @ ..] => query
            .lines()
            .count()
            .saturating_add(kept_in_queries(queries)),
    }
}
