ghost use Rattle.std.specs.Prelude.{◌≡◌, ◌+◌, ◌-◌, ◌*◌, ◌≤◌, min};
ghost use Rattle.std.specs.Char.{is_ascii_digit};
ghost use Rattle.std.specs.List.{list_all};
ghost use Rattle.commands.specs.Commands.{most, decimal_of, command_of};

use theory::Encoding;

// What a line asks for.
#[derive(Clone, Copy, Debug, PartialEq, Eq)]
pub enum Command {
    // the point and the value that have a value number
    Number(usize),
    // the clauses of an encoding
    Clauses(Encoding),
}

// Whether each byte is a decimal digit.
fn all_digits(text: &[u8]) -> bool
    ensures { result ≡ list_all is_ascii_digit text.now }
{
    text.iter().all(u8::is_ascii_digit)
}

// The number with one digit more behind it; one too large to hold is the largest.
fn with_digit(n: usize, digit: u8) -> usize
    requires { 48 ≤ digit }
    ensures { result ≡ min (10 * n + (digit - 48)) most }
{
    n.saturating_mul(10)
        .saturating_add(usize::from(digit - b'0'))
}

// A decimal number of one digit or more; one too large to hold is the largest.
pub fn decimal(text: &[u8]) -> Option<usize>
    ensures { result ≡ decimal_of text.now }
{
    if text.is_empty() || !all_digits(text) {
        return None;
    }
    let value = text.iter().fold(0, |n, digit| with_digit(n, *digit));
    Some(value)
}

// The command that a line gives, if it gives one.
pub fn parse(line: &[u8]) -> Option<Command>
    ensures { result ≡ command_of line.now }
{
    if let Some(digits) = line.strip_prefix(b"number ") {
        return decimal(digits).map(Command::Number);
    }
    let name = line.strip_prefix(b"clauses ")?;
    Encoding::try_from(name).ok().map(Command::Clauses)
}
