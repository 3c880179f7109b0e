//! Words of a content: what lies between its spaces.
ghost use Rattle.std.specs.Prelude.{◌≡◌, ◌≤◌, take, drop, length};
ghost use Rattle.std.specs.List.{list_all};
ghost use Rattle.irc_line.specs.Lines.{is_digit};
ghost use Rattle.irc_line.specs.Grammar.{is_command, is_letter, upper};
ghost use Rattle.irc_line.specs.Reading.{behind_word, skip_spaces, word_of};

/// What follows the spaces.
pub fn without_spaces(text: &[u8]) -> &[u8]
    ensures { result.now ≡ skip_spaces text.now }
{
    match text {
        [] => text,
        [first, rest @ ..] => if *first == b' ' {
            without_spaces(rest)
        } else {
            text
        },
    }
}

/// The first word, and what follows it.
pub fn split_word(text: &[u8]) -> (&[u8], &[u8])
    ensures word { result.0.now ≡ word_of text.now }
    ensures rest { result.1.now ≡ behind_word text.now }
{
    let n = word_len(text);
    (&text[..n], &text[n..])
}

fn word_len(text: &[u8]) -> usize
    ensures bound { result ≤ length text.now }
    ensures word { take result text.now ≡ word_of text.now }
    ensures rest { drop result text.now ≡ behind_word text.now }
{
    match text {
        [] => 0,
        [first, rest @ ..] => if *first == b' ' {
            0
        } else {
            word_len(rest) + 1
        },
    }
}

/// Whether a word is a command: letters, or three digits.
pub fn is_a_command(word: &[u8]) -> bool
    ensures { result ≡ is_command word.now }
{
    (0 < word.len() && all_letters(word)) || (word.len() == 3 && all_digits(word))
}

fn all_letters(word: &[u8]) -> bool
    ensures { result ≡ list_all is_letter word.now }
{
    word.iter().all(|b| is_a_letter(*b))
}

fn all_digits(word: &[u8]) -> bool
    ensures { result ≡ list_all is_digit word.now }
{
    word.iter().all(|b| is_a_digit(*b))
}

fn is_a_letter(b: u8) -> bool
    ensures { result ≡ is_letter b }
{
    (b >= b'A' && b <= b'Z') || (b >= b'a' && b <= b'z')
}

fn is_a_digit(b: u8) -> bool
    ensures { result ≡ is_digit b }
{
    b >= b'0' && b <= b'9'
}

/// A letter in upper case, any other byte as it is.
pub fn upper_byte(b: u8) -> u8
    ensures { result ≡ upper b }
{
    if b >= b'a' && b <= b'z' { b - 32 } else { b }
}
