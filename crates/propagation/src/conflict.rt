// A clause all of whose literals are false. It is never shown, so it has no text.
#[derive(Clone, Copy, Debug, PartialEq, Eq)]
pub struct Conflict;
