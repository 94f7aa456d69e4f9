//! The key of a position.

/// Two words that tell a position from the others of its tree.
#[derive(Clone, Copy, PartialEq, Eq, Debug)]
pub struct Key {
    pub first: u64,
    pub second: u64,
}
