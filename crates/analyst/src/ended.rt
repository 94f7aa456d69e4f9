//! What runs and ends answer.

use lattice::Lattice;

/// What an accepted run answers: the steps that it did, and whether the search is finished.
#[derive(Clone, Copy)]
pub struct Ran {
    pub steps: u32,
    pub finished: bool,
}

/// What an accepted end answers: how many positions the search entered and how many claims of the table it used, each
/// told up to 2^64 - 1, and its value if it is finished.
#[derive(Clone, Copy)]
pub struct Ended<S: Lattice> {
    pub entered: u64,
    pub used: u64,
    pub value: Option<S>,
}
