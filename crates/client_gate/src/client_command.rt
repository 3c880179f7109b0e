ghost use Rattle.std.specs.Prelude.{◌≡◌};
ghost use Rattle.client_gate.specs.Commands.{command_of, fewest, has_text, lacks};

use irc_line::{Line, is_same};

/// The commands that a gate knows (RFC 2812, 3); all others go upstream as they are.
#[derive(Clone, Copy, Debug, PartialEq, Eq)]
pub enum ClientCommand {
    Pass,
    User,
    Nick,
    Cap,
    Ping,
    Pong,
    Quit,
    Join,
    Part,
    Privmsg,
    Notice,
    Topic,
    Kick,
    Other,
}

impl ClientCommand {
    /// The command of a word in upper case.
    #[tactic(auto, unfolding(crate::specs::Commands::command_of))]
    pub fn of_word(word: &[u8]) -> ClientCommand
        ensures { result ≡ command_of word.now }
    {
        if is_same(word, b"PASS") {
            ClientCommand::Pass
        } else if is_same(word, b"USER") {
            ClientCommand::User
        } else if is_same(word, b"NICK") {
            ClientCommand::Nick
        } else if is_same(word, b"CAP") {
            ClientCommand::Cap
        } else if is_same(word, b"PING") {
            ClientCommand::Ping
        } else if is_same(word, b"PONG") {
            ClientCommand::Pong
        } else if is_same(word, b"QUIT") {
            ClientCommand::Quit
        } else if is_same(word, b"JOIN") {
            ClientCommand::Join
        } else if is_same(word, b"PART") {
            ClientCommand::Part
        } else if is_same(word, b"PRIVMSG") {
            ClientCommand::Privmsg
        } else if is_same(word, b"NOTICE") {
            ClientCommand::Notice
        } else if is_same(word, b"TOPIC") {
            ClientCommand::Topic
        } else if is_same(word, b"KICK") {
            ClientCommand::Kick
        } else {
            ClientCommand::Other
        }
    }

    fn fewest(self) -> usize
        ensures { result ≡ fewest self }
    {
        match self {
            ClientCommand::Pass
            | ClientCommand::Nick
            | ClientCommand::Join
            | ClientCommand::Part
            | ClientCommand::Ping
            | ClientCommand::Topic => 1,
            ClientCommand::Privmsg | ClientCommand::Notice | ClientCommand::Kick => 2,
            ClientCommand::User => 4,
            _ => 0,
        }
    }

    fn has_text(self) -> bool
        ensures { result ≡ has_text self }
    {
        match self {
            ClientCommand::Privmsg | ClientCommand::Notice => true,
            _ => false,
        }
    }

    /// Whether a line of this command has too few parameters, or an empty text.
    pub fn lacks(self, line: &Line) -> bool
        ensures { result ≡ lacks self line.now }
    {
        line.parameter_count() < self.fewest() || (self.has_text() && line.parameter(1).is_empty())
    }
}
