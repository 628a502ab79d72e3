ghost use Rattle.std.specs.Prelude.{◌≡◌, ◌+◌, ◌≤◌, map, length};
ghost use Rattle.page.specs.Pages.{sign_text};
ghost use Rattle.page.specs.Writing.{Placed};

use theory::Mark;

// A function and no `Display`: what `Mark` displays is its name.
// The sign of a mark.
fn sign(mark: Mark) -> u8
    ensures { result ≡ sign_text mark }
{
    match mark {
        Mark::In => b'+',
        Mark::Out => b'-',
        Mark::Open => b'.',
    }
}

// Writes the signs of marks from a place on, and answers the place behind them.
pub(crate) fn write_signs(marks: &[Mark], out: &mut [u8], at: usize) -> usize
    requires { at + length marks.now ≤ length out.old }
    ensures { Placed (map sign_text marks.now) at out.old out.new result }
{
    // by place: after a loop over `iter_mut` and an adapter a proof knows how many bytes there are, and not which
    for (v, mark) in marks.iter().enumerate() {
        out[at + v] = sign(*mark);
    }
    at + marks.len()
}
