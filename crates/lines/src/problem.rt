//! A problem: a deal that can be played.

ghost use Rattle.lines.specs.Deals.{Valid};
ghost use Rattle.lines.specs.Problems.{deal};

use crate::deal::Parts;

pub mod questions;

/// A valid problem. The hands of seats 0 and 2 are the same in all layouts.
#[derive(Clone, Copy)]
pub struct Problem {
    parts: Parts,
    ghost valid: { ∥ Valid (deal parts) ∥₁ },
}
