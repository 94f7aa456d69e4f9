//! Scores of the trick game: numbers of tricks, from 0 to 13.

ghost use Rattle.std.specs.Prelude.{◌≡◌};
ghost use Rattle.lattice.specs.TrickScores.{TrickScore, trick_scoring, tricks_of};
ghost use Rattle.lattice.specs.TrickLaws.{trick_laws};

use crate::Lattice;

const MOST: u8 = 13;

/// A number of tricks. A number above 13 stands for 0.
#[derive(Clone, Copy)]
pub struct Tricks(pub u8);

impl Tricks {
    /// The value that stands for the score with this number.
    #[tactic(auto, using(crate::proofs::Codes::code_stands, crate::specs::TrickLaws::trick_laws))]
    fn of(number: u8) -> Tricks
        ensures { (a : TrickScore) → number ≡ a.number → tricks_of result ≡ a }
    {
        Tricks(number)
    }

    /// The number of tricks that the value stands for.
    pub fn number(self) -> u8
        ensures { result ≡ (tricks_of self).number }
    {
        if self.0 <= MOST { self.0 } else { 0 }
    }
}

impl Lattice for Tricks {
    ghost Score = { TrickScore };

    ghost scoring = { trick_scoring };

    ghost stands = { tricks_of };

    ghost laws = { trick_laws };

    fn bottom() -> Tricks {
        Tricks::of(0)
    }

    fn top() -> Tricks {
        Tricks::of(MOST)
    }

    fn join(self, other: Tricks) -> Tricks {
        Tricks::of(self.number().max(other.number()))
    }

    fn meet(self, other: Tricks) -> Tricks {
        Tricks::of(self.number().min(other.number()))
    }

    fn at_or_below(self, other: Tricks) -> bool {
        self.number() <= other.number()
    }

    fn code(self) -> u64 {
        self.number() as u64
    }

    fn read(code: u64) -> Option<Tricks> {
        let number = u8::try_from(code).ok()?;
        (number <= MOST).then_some(Tricks(number))
    }
}
