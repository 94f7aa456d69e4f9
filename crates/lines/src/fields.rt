//! The fields of a line, which are parted by commas.

ghost use Rattle.std.specs.Prelude.{◌+◌, ◌≤◌, length};

use crate::fault::Place;

pub mod cursor;

/// A field: a part of the line, and its place.
#[derive(Clone, Copy)]
pub struct Field<'a> {
    pub text: &'a [u8],
    pub place: Place,
}

/// A cursor over a line's bytes: what comes next is field `number`, which begins `at` bytes into the line.
/// Past the last field `at` is past the line's end, where a further field would begin after a further comma.
#[derive(Drop)]
pub struct Fields<'a> {
    line: &'a [u8],
    at: usize,
    number: usize,
    ghost inside: { at ≤ length line.now + 1 },
    ghost counted: { number ≤ at + 1 },
}
