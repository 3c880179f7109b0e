//! Laws of stores that are begun anew.
ghost use Rattle.buffer_commands.specs.Settings.{Settings};
ghost use Rattle.store_life.specs.Openings.{AnewIsOpened, AnewKeepsThePromises};
ghost use Rattle.store_life.specs.Renewed.{AnewIsLeft};

/// Stores that are begun anew with a list of bodies that one leader brings hold what some list of events leaves in new
/// ones: each node in its run, in this term, with a vote for node 1 and the log of these bodies.
pub fn begun_anew_is_left_by_events()
    ensures { (s : Settings) → AnewIsLeft s }
{}

/// Nodes that are opened over such stores are as these events and a restart of every node leave them.
pub fn begun_anew_stores_are_openings()
    ensures { (s : Settings) → AnewIsOpened s }
{}

/// So bouncers that run over honest stores which were begun anew keep all promises of the bouncer: their records, after
/// these events, are one history of the group, for which the whole headline holds.
pub fn begun_anew_keeps_the_promises()
    ensures { (s : Settings) → AnewKeepsThePromises s }
{}
