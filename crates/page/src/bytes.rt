ghost use Rattle.std.specs.Prelude.{◌+◌, ◌≤◌, length};
ghost use Rattle.page.specs.Writing.{Placed};

// Bytes and place stay two parameters, here and in `signs` and `lines`: of a struct that lends the bytes on, each clause would have to
// say what lies behind two references.
// Writes a text from a place on, and answers the place behind it.
pub(crate) fn write_bytes(text: &[u8], out: &mut [u8], at: usize) -> usize
    requires { at + length text.now ≤ length out.old }
    ensures { Placed text.now at out.old out.new result }
{
    let next = at + text.len();
    out[at..next].copy_from_slice(text);
    next
}
