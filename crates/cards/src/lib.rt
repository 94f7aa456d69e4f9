//! Cards and sets of cards.

#![tactic(auto)]

pub mod card;
pub mod set;

pub use card::{Card, Rank, Suit, UnknownCode};
pub use set::CardSet;
