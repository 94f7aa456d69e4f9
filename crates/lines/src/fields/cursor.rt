//! Going from field to field.

ghost use Rattle.std.specs.Prelude.{◌≡◌, ℕ, ◌<◌, ◌≤◌, length, ◌≢◌, slice_index};
ghost use Rattle.lines.specs.Fields.{here, start, IsNext};

use super::{Field, Fields};
use crate::fault::Place;

/// How many bytes stand before the first comma, or all of them.
fn before_comma(text: &[u8]) -> usize
    ensures high { result ≤ length text.now }
    ensures before { (k : ℕ) → k < result → slice_index text.now k ≢ 44 }
    ensures found { result < length text.now → slice_index text.now result ≡ 44 }
{
    text.iter()
        .position(|byte| *byte == b',')
        .unwrap_or(text.len())
}

impl<'a> Fields<'a> {
    /// A cursor before the first field.
    pub fn new(line: &'a [u8]) -> Fields<'a>
        ensures { here result ≡ start line.now }
    {
        Fields {
            line,
            at: 0,
            number: 1,
        }
    }

    /// The place of the next field, whether it is there or not.
    pub fn place(&self) -> Place
        ensures field { result.field ≡ (here self.now).number }
        ensures byte { result.byte ≡ (here self.now).byte }
    {
        Place {
            field: self.number,
            byte: self.at + 1,
        }
    }
}

/// The fields from the next one on.
impl<'a> Iterator for Fields<'a> {
    type Item = Field<'a>;

    ghost next_gives = { IsNext };

    fn next(&mut self) -> Option<Field<'a>> {
        if self.at > self.line.len() {
            return None;
        }
        let rest = &self.line[self.at..];
        let length = before_comma(rest);
        let field = Field {
            text: &rest[..length],
            place: self.place(),
        };
        self.at += length + 1;
        self.number += 1;
        Some(field)
    }
}
