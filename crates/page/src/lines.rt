ghost use Rattle.std.specs.Prelude.{◌≡◌, ◌+◌, ◌≤◌, false, length};
ghost use Rattle.calls.specs.States.{is_clashed};
ghost use Rattle.session.specs.Sessions.{state_of};
ghost use Rattle.page.specs.Pages.{lines_text, shown_text};
ghost use Rattle.page.specs.Writing.{Placed};

use crate::bytes::write_bytes;
use crate::signs::write_signs;
use network::Point;
use session::Session;
use theory::Mark;

// How many bytes the lines of all points have.
pub(crate) fn lines_length(session: &Session) -> usize
    ensures { result ≡ length (lines_text (state_of session.now)) }
{
    let mut sum = 0;
    // a `for`: a chain was tried, and of its sum either the bound or the value had no proof, since only of a label at hand is it known how long it is
    for point in session.points() {
        sum += point.label().len() + 1 + point.values() as usize + 1;
    }
    sum
}

// Writes the line of a point with the marks of its values from a place on, and answers the place behind it.
fn write_line(point: &Point, marks: &[Mark], out: &mut [u8], at: usize) -> usize
    requires { at + length (shown_text point.now.label marks.now) ≤ length out.old }
    ensures { Placed (shown_text point.now.label marks.now) at out.old out.new result }
{
    let at = write_bytes(&point.label(), out, at);
    let at = write_bytes(b" ", out, at);
    let at = write_signs(marks, out, at);
    write_bytes(b"\n", out, at)
}

// Writes the lines of all points from the start on, and answers the place behind them.
pub(crate) fn write_lines(session: &Session, out: &mut [u8]) -> usize
    requires calm { is_clashed (state_of session.now) ≡ false }
    requires room { length (lines_text (state_of session.now)) ≤ length out.old }
    ensures { Placed (lines_text (state_of session.now)) 0 out.old out.new result }
{
    let mut at = 0;
    for (p, point) in session.points().iter().enumerate() {
        at = write_line(point, session.marks(p).unwrap(), out, at);
    }
    at
}
