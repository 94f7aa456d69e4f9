//! Sets of cards, one bit of a word for each card: bit c for the card with code c.

ghost use Rattle.std.specs.Prelude.{◌<◌, ◌^◌};

mod operations;

/// A set of cards. In clauses it is told as a number, by `bits_of`.
#[derive(Clone, Copy, PartialEq, Eq, Debug)]
pub struct CardSet {
    bits: u64,
    ghost cards: { bits < 2 ^ 52 },
}
