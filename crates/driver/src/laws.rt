//! Laws of every driver, as contracts of functions that do nothing.
ghost use Rattle.driver.specs.Answering.{AnswersGoToWhoAsks};
ghost use Rattle.driver.specs.Claiming.{OneClaimWaits};
ghost use Rattle.driver.specs.Counting.{NotesAreCounted};
ghost use Rattle.driver.specs.Cycling.{CyclesGoAsLines, OnlyJoinsAreReworded};
ghost use Rattle.driver.specs.Downtime.{DownIsOnlyRestarted};
ghost use Rattle.driver.specs.Farewells.{LeaversAreShownAll};
ghost use Rattle.driver.specs.Learning.{JoinsShowTheNick};
ghost use Rattle.driver.specs.Joining.{JoinsFit};
ghost use Rattle.driver.specs.Keys.{KeysAreLearnt};
ghost use Rattle.driver.specs.Led.{IsOfLeaderHeard, IsOfLeaderTicked};
ghost use Rattle.driver.specs.Once.{AsksOnce, AsksOwn};
ghost use Rattle.driver.specs.Ordering.{EndsAreTold, SessionsAreTold};
ghost use Rattle.driver.specs.Pacing.{IsPaced};
ghost use Rattle.driver.specs.Queueing.{DropsWhatWaits, OpeningGoesFirst, QuestionsWait, SaidAreCounted, SaidGoInOrder};
ghost use Rattle.driver.specs.Quitting.{SessionsEndFirst};
ghost use Rattle.driver.specs.Reaching.{EffectsReach};
ghost use Rattle.driver.specs.Rewording.{RewordsEndings};
ghost use Rattle.driver.specs.Sessions.{OpensOnce};
ghost use Rattle.driver.specs.SilentClients.{SilentAreClosed};

/// Whatever happens to a client: as long as its node reports no note of it as lost, and nothing holds it up, each
/// request that its gate numbers goes to its node once, and in order.
pub fn requests_are_told_once()
    ensures { AsksOnce }
{}

/// Only a JOIN among a client's requests may be reworded, as the line that joins the channel. All go in order, each
/// under its number. If a client parts from a channel that it has open, and joins it right after that, the JOIN goes as
/// a line.
pub fn a_channel_is_cycled()
    ensures joins { OnlyJoinsAreReworded }
    ensures cycles { CyclesGoAsLines }
{}

/// Whatever happens to a client, its requests go to its own node alone.
pub fn requests_go_to_their_own_node()
    ensures { AsksOwn }
{}

/// Whatever happens to a client that is leaving, as long as it is connected: all that it is shown is written to it, in
/// order, and nothing else, and it is not closed.
pub fn who_leaves_is_shown_all()
    ensures { LeaversAreShownAll }
{}

/// After each report of a worker, and after each tick, the connection to the server belongs to the leader of the
/// greatest term, as far as the driver knows, or there is none.
pub fn the_server_is_of_the_greatest_leader()
    ensures heard { IsOfLeaderHeard }
    ensures ticked { IsOfLeaderTicked }
{}

/// Over every list of calls of a driver at most one claim of a line waits at a node: if the node is asked to claim a
/// line, and its next claim is of the same line, it reported in between that all of its log is applied.
pub fn one_claim_waits()
    ensures { OneClaimWaits }
{}

/// Over every list of calls of a driver each effect of a report reaches the client of its origin, and no other, even
/// one with the same number.
pub fn effects_reach_their_clients()
    ensures { EffectsReach }
{}

/// A line by which the server ends the session becomes a NOTICE of `*status` in its place, and any other line is shown
/// as it came. Neither changes where an effect goes, nor what a gate makes of it.
pub fn endings_are_reworded()
    ensures { RewordsEndings }
{}

/// Whatever a client says to the bouncer that asks nothing of the buffers: the answer is written to that client and to
/// no other, and nothing else follows, except that DROP WAITING drops said lines that wait to go to the server.
pub fn answers_go_to_who_asks()
    ensures { AnswersGoToWhoAsks }
{}

/// Over every list of calls of a driver, however its orders are taken, the count of a node's notes is the number of
/// notes in its orders.
pub fn notes_are_counted()
    ensures { NotesAreCounted }
{}

/// Over every list of calls of a driver: from the log line that a node is down until the log line that it is up, the
/// node gets no note but to start again.
pub fn a_node_that_is_down_is_only_restarted()
    ensures { DownIsOnlyRestarted }
{}

/// As long as no session of a process has given a nick, the nick in force is the one by which a client is shown a JOIN,
/// from just before it is shown.
pub fn joins_show_the_nick_in_force()
    ensures { JoinsShowTheNick }
{}

/// In any stretch of time no more lines go out than the burst, plus one for each time that a line takes.
pub fn lines_are_paced()
    ensures { IsPaced }
{}

/// In a session, whatever nodes hand out, channels are joined and lines go: the lines that each session sends first go
/// out in order, each once, before anything else that waits. Said lines go out in the order in which they were handed
/// out, each at most once, and all do unless somebody says DROP WAITING. A question for who is in a channel goes only
/// while no said line waits, and no two waiting questions are for the same channel.
pub fn what_is_said_goes_first()
    ensures first { OpeningGoesFirst }
    ensures order { SaidGoInOrder }
    ensures questions { QuestionsWait }
{}

/// In a session, from the moment the server was heard: each said line that goes out is counted once, and nothing else
/// is.
pub fn what_is_said_is_counted()
    ensures { SaidAreCounted }
{}

/// In a session, from DROP WAITING until that drop ends, no said line goes to the server, whatever nodes hand out, and
/// all of them are counted; what is handed out after that goes out as before.
pub fn what_waits_is_dropped()
    ensures { DropsWhatWaits }
{}

/// If the server gives a session again, the lines that each session sends first don't wait once more.
pub fn sessions_open_once()
    ensures { OpensOnce }
{}

/// Whatever lines go to the server: the key by which a channel was last joined is known, and at most 256 are. A JOIN of
/// several channels and their keys fits in a line.
pub fn keys_are_learnt()
    ensures learnt { KeysAreLearnt }
    ensures fit { JoinsFit }
{}

/// Over every list of calls of a driver one connection to the server is asked for at a time. If its node no longer
/// leads, the server gets one QUIT; nothing is sent after it, and the next connection is asked for only once the server
/// closed this one, or had a second to.
pub fn sessions_end_first()
    ensures { SessionsEndFirst }
{}

/// Over every list of calls of a driver, with each connection to the server: at most one node is told that the session
/// opened, and is told so once; after that only this node gets lines of it, until it is logged that the session ended.
/// Right after that this node may be told so, and until the next connection is asked for no node is told anything of a
/// session. If the server's end is reported and the node is up, as far as is known, the node is told so.
pub fn sessions_are_told()
    ensures order { SessionsAreTold }
    ensures ends { EndsAreTold }
{}

/// Whatever happened to a client since it connected: if it registered, its password was right, and it is neither leaving
/// nor gone, then as time passes it is closed exactly if nothing came of it for four minutes in which it was read, and
/// it was sent a PING since it last spoke. It is sent that PING, once, when nothing came of it for two such minutes.
pub fn silent_clients_are_closed()
    ensures { SilentAreClosed }
{}
