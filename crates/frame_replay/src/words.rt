//! The words of a run: which command they name.

ghost use Rattle.std.specs.Prelude.{◌≡◌, ◌≤◌, ◌∷◌, [], IfSome};
ghost use Rattle.std.specs.Str.{all_ascii_digits};
ghost use Rattle.frame_replay.specs.Commands.{command_in, command_named, load_of, number_in};

use file_generator::MAX_TRANSACTIONS;

/// What the words of a run ask for.
#[derive(Clone, Copy, Debug, PartialEq, Eq)]
pub enum Command {
    /// A record for each transaction of an input, a frame's pixels among them; with `stats`, after each frame what it took.
    Replay { stats: bool },
    /// The same without `stats`, always by the plain painter.
    Paint,
    /// A summary of the answers to so many transactions, 1 to 100,000, that a number makes.
    Load { number: u64, count: u32 },
}

/// The most digits of a number.
const MAX_DIGITS: usize = 10;

/// Whether each byte is a decimal digit.
fn are_digits(word: &str) -> bool
    ensures { result ≡ all_ascii_digits word.now }
{
    let bytes = word.as_bytes();
    for byte in bytes {
        if !byte.is_ascii_digit() {
            return false;
        }
    }
    true
}

/// The number that 1 to 10 decimal digits write, where zeros may lead.
fn read_number(word: &str) -> Option<u64>
    ensures { result ≡ number_in word.now }
{
    if word.is_empty() || MAX_DIGITS < word.len() || !are_digits(word) {
        return None;
    }
    word.parse().ok()
}

/// `load` with a number and a count.
fn load_command(number: Option<u64>, count: Option<u64>) -> Option<Command>
    ensures { result ≡ load_of number count }
{
    let number = number?;
    let count = count?;
    if count < 1 || u64::from(MAX_TRANSACTIONS) < count {
        return None;
    }
    Some(Command::Load {
        number,
        count: count as u32,
    })
}

/// The command of one word.
fn command_word(word: &str) -> Option<Command>
    ensures { result ≡ command_in (word.now ∷ []) }
{
    match word {
        "replay" => Some(Command::Replay { stats: false }),
        "paint" => Some(Command::Paint),
        _ => None,
    }
}

/// The command of two words.
fn command_of_two(word: &str, flag: &str) -> Option<Command>
    ensures { result ≡ command_in (word.now ∷ (flag.now ∷ [])) }
{
    if word == "replay" && flag == "--stats" {
        return Some(Command::Replay { stats: true });
    }
    None
}

/// The command of three words.
fn command_of_three(word: &str, number: &str, count: &str) -> Option<Command>
    ensures { result ≡ command_in (word.now ∷ (number.now ∷ (count.now ∷ []))) }
{
    match word {
        "load" => load_command(read_number(number), read_number(count)),
        _ => None,
    }
}

/// The command that the words name.
pub(crate) fn find_command(words: &[String]) -> Option<Command>
    ensures { result ≡ command_named words.now }
{
    match words {
        [word] => command_word(word.as_str()),
        [word, flag] => command_of_two(word.as_str(), flag.as_str()),
        [word, number, count] => {
            command_of_three(word.as_str(), number.as_str(), count.as_str())
        }
        _ => None,
    }
}
