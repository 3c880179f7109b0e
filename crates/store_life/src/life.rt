//! Laws over the life of a store, through all its periods.
ghost use Rattle.store_life.specs.Clients.{NobodyToldInBoth, ToldInItsRun, ToldInNewRuns};
ghost use Rattle.store_life.specs.Periods.{AgreedIsChosen, BegunIsAgreed, EachHandsItsLines};
ghost use Rattle.store_life.specs.Periods.{NoneHandedTwice, SerialsGoOn, WaitingLinesGoOn};

/// Nothing that was agreed is lost, whichever minority of the nodes loses its stores: what was agreed in a period, up
/// to any moment, begins the log that is chosen at its end, which is at least as up to date as those of a majority.
/// What is agreed over stores that were begun anew begins with what they were begun with.
pub fn what_is_agreed_is_kept()
    ensures chosen { AgreedIsChosen }
    ensures begun { BegunIsAgreed }
{}

/// The lines that a period hands upstream are numbered above those that were claimed when it began, each once, and each
/// is claimed in the log that is chosen at its end: it is none of those that wait after that.
pub fn each_period_hands_its_own_lines()
    ensures { EachHandsItsLines }
{}

/// The lines that wait after the chosen log of a period are, one by one, those that wait when the next begins. Each has
/// the same serial in both.
pub fn waiting_lines_go_on()
    ensures lines { WaitingLinesGoOn }
    ensures serials { SerialsGoOn }
{}

/// No line is handed upstream twice in the life of a store, whatever was begun anew or set otherwise between its periods,
/// and whichever minority of the nodes lost its stores.
pub fn no_line_is_handed_twice()
    ensures { NoneHandedTwice }
{}

/// What goes to a client in a period goes to one of a run that its node had made by the end, and over stores that were
/// begun anew to one of a run after that of its store. So no client gets anything in two periods if the later one's
/// runs follow those of the other: no request is reported as done in both.
pub fn no_client_is_told_in_two_periods()
    ensures made { ToldInItsRun }
    ensures new { ToldInNewRuns }
    ensures apart { NobodyToldInBoth }
{}
