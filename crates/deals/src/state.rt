//! States of play.

use crate::trick::Trick;
use bitsets::BitSet;
use cards::CardSet;
use lines::Seat;

pub mod rules;

/// Where the play of a deal stands: the cards that are not played, the seat that led to the trick and the cards of it,
/// the tricks that seats 0 and 2 have won, and the layouts in which each card so far was legal.
#[derive(Clone, Copy)]
pub struct State {
    pub(crate) unplayed: CardSet,
    pub(crate) leader: Seat,
    pub(crate) trick: Trick,
    pub(crate) won: u8,
    pub(crate) live: BitSet,
}
