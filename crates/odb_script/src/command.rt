//! The commands of a script. [P 15.1]
ghost use Rattle.std.specs.Prelude.{◌≡◌, option_map, MatchOption, None, Some, ◌==◌, ◌+◌, ◌-◌, ◌*◌, ◌^◌};
ghost use Rattle.std.specs.List.{list_all, position};
ghost use Rattle.odb_atoms.specs.Text.{is_digit};
ghost use Rattle.odb_script.specs.Script as model;
ghost use Rattle.odb_script.specs.Represented.Command.{below, command_in};

/// A command. A name has 1 to 16 ASCII letters or digits.
#[derive(Clone, Copy)]
pub(crate) enum Command<'a> {
    /// Bytes for the framer of the session of a name.
    Piece { name: &'a [u8], bytes: &'a [u8] },
    /// A session is opened under a name.
    Open(&'a [u8]),
    /// The session of a name is closed.
    Close(&'a [u8]),
    /// What the session of a name is owed is kept back.
    Hold(&'a [u8]),
    /// The session of a name is given what it is owed, which is no longer kept back.
    Take(&'a [u8]),
    /// The moment is this one, in milliseconds.
    Tick(u64),
}

impl<'a> Command<'a> {
    /// Reads a line, without its line feed: `!open NAME`, `!close NAME`, `!hold NAME`, `!take NAME`,
    /// `!tick N` or `NAME BYTES`, with one space between. N has 1 to 20 digits and is below 2^64.
    /// `None` where the line is none of these.
    pub(crate) fn read(line: &'a [u8]) -> Option<Command<'a>>
        ensures { option_map command_in result ≡ model.command_of line.now }
    {
        let (word, rest) = split_at_space(line)?;
        Command::of_words(word, rest)
    }

    fn of_words(word: &'a [u8], rest: &'a [u8]) -> Option<Command<'a>>
        ensures { option_map command_in result ≡ model.command_by word.now (Some rest.now) }
    {
        if word == b"!open".as_slice() {
            is_name(rest).then_some(Command::Open(rest))
        } else if word == b"!close".as_slice() {
            is_name(rest).then_some(Command::Close(rest))
        } else if word == b"!hold".as_slice() {
            is_name(rest).then_some(Command::Hold(rest))
        } else if word == b"!take".as_slice() {
            is_name(rest).then_some(Command::Take(rest))
        } else if word == b"!tick".as_slice() {
            Command::tick_to(rest)
        } else {
            is_name(word).then_some(Command::Piece {
                name: word,
                bytes: rest,
            })
        }
    }

    fn tick_to(digits: &[u8]) -> Option<Command<'a>>
        ensures { option_map command_in result ≡ model.tick_of digits.now }
    {
        if digits.is_empty() || digits.len() > 20 || !are_digits(digits) {
            return None;
        }
        match number_in(digits) {
            Some(moment) => Some(Command::Tick(moment)),
            None => None,
        }
    }
}

/// Returns the number that decimal digits are; `None` where it is 2^64 or more.
fn number_in(digits: &[u8]) -> Option<u64>
    ensures { result ≡ below (2 ^ 64) (model.number_in 0 digits.now) }
{
    let mut number = 0;
    for digit in digits {
        let Some(longer) = with_digit(number, *digit) else {
            return None;
        };
        number = longer;
    }
    Some(number)
}

fn with_digit(number: u64, digit: u8) -> Option<u64>
    ensures { result ≡ below (2 ^ 64) (10 * number + (digit - 48)) }
{
    let tens = number.checked_mul(10)?;
    tens.checked_add(u64::from(digit.saturating_sub(b'0')))
}

fn are_digits(bytes: &[u8]) -> bool
    ensures { result ≡ list_all is_digit bytes.now }
{
    bytes.iter().all(|byte| byte.is_ascii_digit())
}

/// Returns the bytes before the first space, and those after it. `None` where there is no space.
fn split_at_space(line: &[u8]) -> Option<(&[u8], &[u8])>
    ensures { MatchOption result ((model.split_at 32 line.now).1 ≡ None)
        (λ parts. model.split_at 32 line.now ≡ (parts.0.now, Some parts.1.now)) }
{
    let at = first_space(line)?;
    Some((&line[..at], &line[at + 1..]))
}

fn first_space(line: &[u8]) -> Option<usize>
    ensures { result ≡ position (λ byte. byte == 32) line.now }
{
    line.iter().position(|byte| *byte == b' ')
}

fn is_name(bytes: &[u8]) -> bool
    ensures { result ≡ model.is_name bytes.now }
{
    !bytes.is_empty() && bytes.len() <= 16 && are_letters_and_digits(bytes)
}

fn are_letters_and_digits(bytes: &[u8]) -> bool
    ensures { result ≡ list_all model.is_letter_or_digit bytes.now }
{
    bytes.iter().all(|byte| byte.is_ascii_alphanumeric())
}
