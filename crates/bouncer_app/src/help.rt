//! What the program says about itself.

/// How to call it, printed after a wrong call.
pub const USAGE: &str =
    "usage: bouncer [init FOLDER [NICK [SERVER [CHANNEL..]]] | run CONFIG | check CONFIG | \
renew CONFIG [--forget NAME].. | show JOURNAL [TARGET] [--all] | fold | world N | replay FILE | draw FILE | \
help | --version]";

/// The prompt for a person at a terminal who is to type the input.
pub const WAITING: &str =
    "bouncer: reads from the terminal until Ctrl-D; `bouncer help` says what it can do";

/// The program's name, and its version.
pub const VERSION: &str = "bouncer 0.1.0";

/// The page of `bouncer help`, which fits a screen.
pub const HELP: &str = "\
bouncer keeps you on IRC while you are away. Words, each with an example:

  init FOLDER   writes a first configuration, with a password of its own; asks for a
                nick, a server and channels that are not given after it
                  bouncer init hukbarg
  run CONFIG    runs the bouncer of a configuration, until standard input ends
                  bouncer run examples/hukbarg.toml
  check CONFIG  says what run would do, and warns as it would; changes nothing
                  bouncer check examples/hukbarg.toml
  renew CONFIG  renews a log that is full or nearly so; what was kept is kept;
                with --forget NAME after it, without the name of a client
                  bouncer renew examples/hukbarg.toml
  fold          shows what clients see of the commands on standard input
                  bouncer fold < examples/playback.hex
  world N       runs the events on standard input over 3, 5 or 7 nodes
                  bouncer world 3 < examples/election.events
  replay FILE   runs a record again: is it the same?
                  bouncer replay examples/candidate.record
  draw FILE     draws the run of a record, as a sequence diagram in SVG
                  bouncer draw examples/failover.record > run.svg
  show JOURNAL  prints the chat in a journal; with a channel or a nick behind it what
                concerns that one, with --all what else the server said too
                  bouncer show store/node-1 '#x' --all
  help          prints this page
  --version     prints the version

With no word it folds. It exits with 0, with 1 for a fault, which it names, with
2 for other words, and with 3 where a record differs. docs/MANUAL.md says more.";
