//! A word in hexadecimal.

ghost use Rattle.std.specs.Prelude.{◌≡◌, IfOk, string_bytes};
ghost use Rattle.answers.specs.Hex.{hex_text};

use std::alloc::{AllocError, Global};

/// A word as 0x and sixteen digits.
#[tactic(auto, using(crate::proofs::Written::sixteen_digits))]
pub fn hex(heap: Global, word: u64) -> Result<String, AllocError>
    ensures { IfOk result (λ s. string_bytes s ≡ hex_text word) }
{
    format!(in heap; "0x{word:016x}")
}
