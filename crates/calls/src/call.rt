ghost use Rattle.std.specs.Prelude.{Some};
ghost use Rattle.calls.specs.Names.{decided_name};

use crate::CallRefusal;
use std::fmt;
use theory::Mark;

// What may be asked of a session. A value is named by its point and its number in that point: two numbers, since a caller
// would make a struct of both for each call, and the numbering would take it apart at once.
#[derive(Clone, Copy, Debug, PartialEq, Eq)]
pub enum Call {
    // choose the value
    Choose(usize, usize),
    // bar the value
    Bar(usize, usize),
    // take the latest standing decision back
    Withdraw,
    // the mark of the value
    Mark(usize, usize),
    // how many values of the point are not out
    Left(usize),
    // the value of the point that is in
    Value(usize),
    // how many decisions stand
    Decisions,
    // whether there is a clash
    Clash,
}

// How a decision went that was not refused.
#[derive(Clone, Copy, Debug, PartialEq, Eq)]
pub enum Decided {
    // it stands
    Taken,
    // it stands, and the session is clashed
    Clash,
    // the value has that mark already, and nothing changed
    Already,
}

impl fmt::Display for Decided {
    ghost output = { λ decided. Some (decided_name decided) };

    fn fmt<W: fmt::Write>(&self, f: &mut fmt::Formatter<W>) -> fmt::Result {
        f.write_str(match self {
            Decided::Taken => "taken",
            Decided::Clash => "clash",
            Decided::Already => "already",
        })
    }
}

// A call and what was answered.
#[derive(Clone, Copy, Debug, PartialEq, Eq)]
pub enum Exchange {
    Choose(usize, usize, Result<Decided, CallRefusal>),
    Bar(usize, usize, Result<Decided, CallRefusal>),
    Withdraw(Result<(), CallRefusal>),
    Mark(usize, usize, Result<Mark, CallRefusal>),
    Left(usize, Result<usize, CallRefusal>),
    Value(usize, Result<Option<usize>, CallRefusal>),
    Decisions(usize),
    Clash(bool),
}
