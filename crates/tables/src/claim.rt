//! What a table holds.

use games::Key;

/// That the value of the position with this key lies between the scores whose codes are `lo` and `hi`.
#[derive(Clone, Copy, PartialEq, Eq, Debug)]
pub struct Claim {
    pub key: Key,
    pub lo: u64,
    pub hi: u64,
}
