ghost use Rattle.std.specs.Prelude.{◌≡◌, ℕ, ◌^◌, ◌/◌, ◌<◌};
ghost use Rattle.theory.specs.Literals.{is_in, is_out, opposite};
ghost use Rattle.literals.specs.Given.{mark_given, truth_by};

use std::marker::Model;
use theory::Mark;

// A literal: that a value is in, or that it is out. Contracts see its number, 2n or 2n + 1 for the value n.
#[derive(Clone, Copy, Debug, PartialEq, Eq)]
pub struct Literal(u32);

impl Model for Literal {
    ghost Value = { ℕ };

    ghost view = { λ l. l.0 };

    ghost inverse = { λ n. record { 0 = n } };
}

impl From<u32> for Literal {
    ghost from_gives = { λ number literal. literal ≡ number };

    // The literal of a number.
    fn from(number: u32) -> Literal {
        Literal(number)
    }
}

impl From<Literal> for u32 {
    ghost from_gives = { λ literal number. number ≡ literal };

    // The number of a literal.
    fn from(literal: Literal) -> u32 {
        literal.0
    }
}

impl Literal {
    // `is_in` and `is_out` stay two: each is one sum, and a shared one would be told which by a flag.
    // The literal that the value n is in.
    pub fn is_in(n: usize) -> Literal
        requires { n < 2 ^ 31 }
        ensures { result ≡ is_in n }
    {
        Literal(2 * n as u32)
    }

    // The literal that the value n is out.
    pub fn is_out(n: usize) -> Literal
        requires { n < 2 ^ 31 }
        ensures { result ≡ is_out n }
    {
        Literal(2 * n as u32 + 1)
    }

    // Its number, as an index.
    pub fn index(self) -> usize
        ensures { result ≡ self }
    {
        self.0 as usize
    }

    // The value that it speaks of.
    pub fn value(self) -> usize
        ensures { result ≡ self / 2 }
    {
        self.index() / 2
    }

    // The literal that says the contrary.
    pub fn opposite(self) -> Literal
        ensures { result ≡ opposite self }
    {
        if self.0 % 2 == 0 {
            Literal(self.0 + 1)
        } else {
            Literal(self.0 - 1)
        }
    }

    // The mark that its value has where it holds.
    pub fn mark(self) -> Mark
        ensures { result ≡ mark_given self }
    {
        if self.0 % 2 == 0 { Mark::In } else { Mark::Out }
    }

    // Whether it is true where its value has the mark: nothing where that is open.
    pub fn truth(self, mark: Mark) -> Option<bool>
        ensures { result ≡ truth_by mark self }
    {
        match mark {
            Mark::Open => None,
            // two truths compared, and no test on the mark: of a clause at hand each such guess is as often wrong as right
            Mark::In | Mark::Out => Some((mark == Mark::In) == (self.0 % 2 == 0)),
        }
    }
}
