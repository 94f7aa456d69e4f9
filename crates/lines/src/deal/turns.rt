//! The turns of the seats.

ghost use Rattle.std.specs.Prelude.{◌≡◌, ◌+◌, ◌%◌, ◌<◌};
ghost use Rattle.lines.specs.Seats.{seat_number};

use super::Seat;

impl Seat {
    /// The number of the seat, 0 to 3.
    // Stays a method, here and below: by `u8::from(seat)` a reader would not see that turns are counted.
    pub fn number(self) -> u32
        ensures value { result ≡ seat_number self }
        ensures bound { result < 4 }
    {
        self as u32
    }

    /// The seat whose turn comes so many turns after this one's.
    pub fn later(self, turns: u32) -> Seat
        ensures { seat_number result ≡ (seat_number self + turns) % 4 }
    {
        match (self.number() + turns % 4) % 4 {
            0 => Seat::North,
            1 => Seat::East,
            2 => Seat::South,
            _ => Seat::West,
        }
    }
}
