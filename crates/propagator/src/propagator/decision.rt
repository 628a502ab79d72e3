use literals::Literal;

// A decision that stands.
#[derive(Clone, Copy, Debug, PartialEq, Eq)]
pub(super) struct Decision {
    // what was decided
    pub(super) literal: Literal,
    // how long the trail was before it
    pub(super) height: usize,
}
