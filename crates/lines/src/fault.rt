//! What can be wrong with a problem line, and where.

ghost use Rattle.std.specs.Prelude.{◌≡◌, Some};
ghost use Rattle.lines.specs.Faults.{fault_number, fault_report};

use std::fmt;

/// What is wrong with a field. The questions are asked in this order, all of one field before those of the next.
#[derive(Clone, Copy, PartialEq, Eq, Debug)]
pub enum FaultKind {
    /// The first field is not exactly a kind of problem.
    Kind = 11,
    /// The field is not there.
    Missing = 12,
    /// The field is not of an allowed value.
    Value = 13,
    /// The field is not a hand: 1 to 13 cards, each spelled by suit and rank, in strictly rising code.
    Hand = 14,
    /// The hand is not as long as the first hand.
    Length = 15,
    /// The hand has a card of an earlier hand of the same layout.
    Repeated = 16,
    /// The two hands of this layout do not hold the cards that those of the first layout hold.
    Cards = 17,
    /// The field comes after the last one.
    Surplus = 18,
}

impl FaultKind {
    /// The number under which a fault is reported.
    // Stays a method: the number is promised by this name, and a From beside it would say it twice.
    pub fn number(self) -> u8
        ensures { result ≡ fault_number self }
    {
        self as u8
    }
}

/// The place of a field in a line: its number and its first byte, both from 1.
/// A missing field's first byte is where it would begin after a further comma.
#[derive(Clone, Copy, PartialEq, Eq, Debug)]
pub struct Place {
    pub field: usize,
    pub byte: usize,
}

/// A fault and its place.
#[derive(Clone, Copy, PartialEq, Eq, Debug)]
pub struct Fault {
    pub kind: FaultKind,
    pub place: Place,
}

impl Place {
    /// A fault at this place.
    pub fn fault(self, kind: FaultKind) -> Fault
        ensures { result ≡ record { kind = kind; place = self } }
    {
        Fault { kind, place: self }
    }
}

/// The fault's number, its field and its byte, parted by commas.
impl fmt::Display for Fault {
    ghost output = { λ f. Some (fault_report f) };

    fn fmt<W: fmt::Write>(&self, f: &mut fmt::Formatter<W>) -> fmt::Result {
        let number = self.kind.number();
        let Place { field, byte } = self.place;
        write!(f, "{number},{field},{byte}")
    }
}
