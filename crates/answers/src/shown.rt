//! How answer lines show scores.

ghost use Rattle.std.specs.Prelude.{◌≡◌, ℕ, List, IfOk, string_bytes, codes, decimal};
ghost use Rattle.answers.specs.Hex.{hex_text};

use crate::hex::hex;
use lattice::Lattice;
use lattice::family::Family;
use lattice::tricks::Tricks;
use std::alloc::{AllocError, Global};

/// Scores that answer lines show.
pub trait Shown: Lattice {
    // The letter of the problems that such scores answer, and the text of the score with a code.
    ghost letter: { List ℕ };

    ghost shown: { ℕ → List ℕ };

    /// The letter of the problems that such scores answer.
    fn letter() -> &'static str
        ensures { result.now ≡ letter };

    /// The text of the score.
    fn shown(self, heap: Global) -> Result<String, AllocError>
        ensures { IfOk result (λ s. string_bytes s ≡ shown (Self.scoring.code (Self.stands self))) };
}

/// Tricks in decimal.
impl Shown for Tricks {
    ghost letter = { codes "D" };

    ghost shown = { decimal };

    fn letter() -> &'static str {
        "D"
    }

    fn shown(self, heap: Global) -> Result<String, AllocError> {
        let tricks = self.number();
        format!(in heap; "{tricks}")
    }
}

/// Families in hexadecimal.
impl Shown for Family {
    ghost letter = { codes "P" };

    ghost shown = { hex_text };

    fn letter() -> &'static str {
        "P"
    }

    fn shown(self, heap: Global) -> Result<String, AllocError> {
        hex(heap, self.code())
    }
}
