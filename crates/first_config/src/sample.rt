//! The text of a first configuration, without what differs from one person to the next. It is that of
//! examples/hukbarg.toml; docs/keys makes this file from it.

/// What comes before the nick.
pub const BEFORE_NICK: &str =
    "# The configuration of `bouncer run`. Only the first five keys are needed.

# The nick that the bouncer asks the server for. If it is taken, the bouncer asks for it with `_` after it.
nick = ";

/// Between the nick and the clients' password.
pub const BEFORE_PASSWORD: &str = "\n
# What clients send in PASS: 1 to 64 bytes without space. A device that gives a name is played what that name has not seen:
#   irssi:   /server add -network hukbarg 127.0.0.1 6701 x@laptop:PASSWORD
#   WeeChat: /server add hukbarg 127.0.0.1/6701 -password=x@phone:PASSWORD -notls
password = ";

/// Between that and the server's address.
pub const BEFORE_SERVER: &str = "\n
# Where the IRC server is, as 127.0.0.1:PORT. For a server elsewhere, or one with TLS, this is the address of a tunnel to it.
upstream = ";

/// Between that and the channels.
pub const BEFORE_CHANNELS: &str = "\n
# Where each node listens for clients: three, five or seven addresses 127.0.0.1:PORT, one for each node.
listen = [\"127.0.0.1:6701\", \"127.0.0.1:6702\", \"127.0.0.1:6703\"]

# The folder of the nodes' journals, or a list with a folder for each node, so that each may be on a disk of its own. A folder
# is made if it is missing, the one around it is not. Node N's journal is the file `node-N`. A path that does not begin with /
# is relative to the folder of this file.
store = \"store\"

# What the server is sent in PASS, if it asks for a password.
# upstream_password = \"secret\"

# The file that the record of the run is written to at the end, of a run that began with new journals. It is kept in memory
# until then, and `bouncer replay` reads at most 64 MB of it: for a test or an audit of a day, not for good. Without this
# key none is written.
# record = \"run.record\"

# The channels that are joined at the start, at most 100.
channels = ";

/// After the channels.
pub const BEHIND: &str = "\n
# The keys of channels. A key that a client joins with is known as long as the program runs.
# channel_keys = { \"#hukbarg\" = \"sesame\" }

# Lines that each session sends before all else; they are in no log and no journal.
# on_connect = [\"PRIVMSG NickServ :IDENTIFY secret\"]

# How many lines a channel and a query keep, 0 to 500, and how many queries are kept, 1 to 50.
chan_buffer_size = 50
query_buffer_size = 50
max_query_buffers = 50

# Whether a channel, or a query, is emptied once it has been played.
auto_clear_chan_buffer = true
auto_clear_query_buffer = true

# Whether more than one client may be attached at a time.
multi_clients = true

# By how many minutes the times of played lines are ahead of UTC, -1439 to 1439.
offset_minutes = 0

# How often a leader tells the others that it is there, in milliseconds, 10 to 10000: at most a third of `timeout_ms`, else no
# leader stays.
beat_ms = 100

# After how many milliseconds without a leader another one is elected, 50 to 60000.
timeout_ms = 1000

# How many lines go to the server at once, 1 to 100, and how many milliseconds each further one waits, 0 to 60000.
flood_burst = 5
flood_ms = 2000

# How much is written to standard error: quiet, info or debug.
log = \"info\"

# What the end of standard input does: stop ends the bouncer, which is how it is told to end; with ignore standard input is not
# read, and the bouncer runs until it is killed (for nohup, cron and containers).
input = \"stop\"

# A start over a log of more entries than this renews it, so that it never gets full: up to 1000000, 0 is never.
renew_at = 0
";
