//! That what holds for the bouncer over every list of events holds for running nodes.
ghost use Rattle.buffer_commands.specs.Settings.{Settings};
ghost use Rattle.headline.specs.Running.{KeepThePromises};

/// If the views of all nodes keep the rule over honest stores, and the openings are as some list of events leaves the
/// nodes, that list and after it the events of all records are one history of the group, for which the whole headline
/// holds: agreement, faithful playback, requests act once, lines are handed once, confirmed looks are current. So no
/// number was handed out by two nodes.
pub fn running_bouncers_keep_the_promises()
    ensures { (s : Settings) → KeepThePromises s }
{}
