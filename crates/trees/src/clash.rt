// The clash of two terms that are brought together.

// No trees make the two sides one.
#[derive(Clone, Copy, PartialEq, Eq, Debug)]
pub(crate) struct Clash;
