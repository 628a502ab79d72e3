ghost use Rattle.std.specs.Prelude.{◌≡◌, Some, None, MatchOption, position, ◌==◌};
ghost use Rattle.commands.specs.Commands.{decimal_of};
ghost use Rattle.session_commands.specs.Commands.{cut_of, bare_of, clauses_of, one_of, two_of, numbers_of, behind_of, command_of};

use calls::Call;
use commands::command::{Command as PlanCommand, decimal};
use theory::Encoding;

// What a line asks for.
#[derive(Clone, Copy, Debug, PartialEq, Eq)]
pub enum Command {
    // a call of the session
    Ask(Call),
    // the page of the session
    Page,
    // the scores of the halves of a table
    Half(usize),
    // what the program plan answers too
    Plan(PlanCommand),
}

// The place of the first space of a line.
fn first_space(line: &[u8]) -> Option<usize>
    ensures { result ≡ position (λ b. b == 32) line.now }
{
    line.iter().position(|b| *b == b' ')
}

// The word before the first space of a line, and what stands behind that space.
fn cut(line: &[u8]) -> Option<(&[u8], &[u8])>
    ensures { MatchOption result (cut_of line.now ≡ None) (λ p. cut_of line.now ≡ Some (p.0.now, p.1.now)) }
{
    let space = first_space(line)?;
    Some((&line[..space], &line[space + 1..]))
}

// The command of a word alone.
fn bare(word: &[u8]) -> Option<Command>
    ensures { result ≡ bare_of word.now }
{
    match word {
        b"withdraw" => Some(Command::Ask(Call::Withdraw)),
        b"decisions" => Some(Command::Ask(Call::Decisions)),
        b"clash" => Some(Command::Ask(Call::Clash)),
        b"page" => Some(Command::Page),
        _ => None,
    }
}

// `clauses` and `number` are taken apart here too: falling back on the parser of `commands` would take each line apart a second time.
// The clauses of the encoding of a name.
fn clauses(name: &[u8]) -> Option<Command>
    ensures { result ≡ clauses_of name.now }
{
    let encoding = Encoding::try_from(name).ok()?;
    Some(Command::Plan(PlanCommand::Clauses(encoding)))
}

// The command of a word and a number.
fn one_number(word: &[u8], digits: &[u8]) -> Option<Command>
    ensures { result ≡ one_of word.now (decimal_of digits.now) }
{
    let n = decimal(digits)?;
    match word {
        b"left" => Some(Command::Ask(Call::Left(n))),
        b"value" => Some(Command::Ask(Call::Value(n))),
        b"number" => Some(Command::Plan(PlanCommand::Number(n))),
        b"half" => Some(Command::Half(n)),
        _ => None,
    }
}

// The command of a word and two numbers, a point and a value.
fn two_numbers(word: &[u8], first: &[u8], second: &[u8]) -> Option<Command>
    ensures { result ≡ two_of word.now (decimal_of first.now) (decimal_of second.now) }
{
    let p = decimal(first)?;
    let v = decimal(second)?;
    match word {
        b"choose" => Some(Command::Ask(Call::Choose(p, v))),
        b"bar" => Some(Command::Ask(Call::Bar(p, v))),
        b"mark" => Some(Command::Ask(Call::Mark(p, v))),
        _ => None,
    }
}

// The command of a word and the numbers behind it.
fn numbers(word: &[u8], rest: &[u8]) -> Option<Command>
    ensures { result ≡ numbers_of word.now rest.now }
{
    match cut(rest) {
        Some((first, second)) => two_numbers(word, first, second),
        None => one_number(word, rest),
    }
}

// The command of a word and what stands behind it.
fn behind(word: &[u8], rest: &[u8]) -> Option<Command>
    ensures { result ≡ behind_of word.now rest.now }
{
    match word {
        b"clauses" => clauses(rest),
        _ => numbers(word, rest),
    }
}

// The command that a line gives, if it gives one.
pub fn parse(line: &[u8]) -> Option<Command>
    ensures { result ≡ command_of line.now }
{
    match cut(line) {
        Some((word, rest)) => behind(word, rest),
        None => bare(line),
    }
}
