//! An open position of a search, and what a search has in hand.

use bitsets::BitSet;
use lattice::Lattice;
use lattice::bracket::Bracket;

mod counts;
mod moves;

/// An open position: the window that it was entered with, the bracket found from the children searched so far,
/// the places of the children taken, and the place taken last.
#[derive(Clone, Copy)]
pub struct Frame<S: Lattice> {
    pub window: Bracket<S>,
    pub found: Bracket<S>,
    pub taken: BitSet,
    pub last: Option<u32>,
}

/// What a search has in hand, which says what its next step does.
#[derive(Clone, Copy)]
pub enum Hand<S: Lattice> {
    /// Enter the present position with this window.
    Enter(Bracket<S>),
    /// Give this bracket of the present position to its parent.
    Holding(Bracket<S>),
    /// Go on with the present position, which the newest frame is for.
    Nothing,
}

/// How far a search has come: what is in hand, the positions entered and the claims used.
// Stays apart from the stack: an analyst keeps the progress and its caller the stack, and each call has both by borrows.
#[derive(Clone, Copy)]
pub struct Progress<S: Lattice> {
    pub hand: Hand<S>,
    pub entered: u64,
    pub used: u64,
}
