//! A low and a high score: bounds of a value, or a window that shows a value only as far as its clamp.

ghost use Rattle.std.specs.Prelude.{◌≡◌};
ghost use Rattle.lattice.specs.Scores.{standing};
ghost use Rattle.lattice.specs.Windows.{scored, point, whole, clamped, same, Decision, read_decided};

use crate::Lattice;

/// Two scores. No order between them is asked for.
#[derive(Clone, Copy)]
pub struct Bracket<S: Lattice> {
    pub lo: S,
    pub hi: S,
}

/// Whether two values stand for the same score.
// Stays a test by the order: values that differ may stand for one score, so a derived equality of values is not that of scores.
fn equal<S: Lattice>(a: S, b: S) -> bool
    ensures { result ≡ same S.Lattice.scoring (S.Lattice.stands a) (S.Lattice.stands b) }
{
    a.at_or_below(b) && b.at_or_below(a)
}

impl<S: Lattice> Bracket<S> {
    /// The bracket of one score.
    pub fn point(score: S) -> Bracket<S>
        ensures { result ≡ point score }
    {
        Bracket {
            lo: score,
            hi: score,
        }
    }

    /// The bracket of all scores: as a window it shows every value as it is.
    pub fn whole() -> Bracket<S>
        ensures { scored S.Lattice.stands result ≡ whole S.Lattice.scoring }
    {
        Bracket {
            lo: S::bottom(),
            hi: S::top(),
        }
    }

    /// The clamp of a score in this window.
    pub fn clamp(self, score: S) -> S
        ensures { S.Lattice.stands result ≡ clamped S.Lattice.scoring (scored S.Lattice.stands self) (S.Lattice.stands score) }
    {
        self.lo.join(score.meet(self.hi))
    }

    /// Whether this bracket decides the window: its two ends have the same clamp there.
    /// Then every score in the bracket has that clamp too.
    pub fn decides(self, window: Bracket<S>) -> bool
        ensures { Decision S.Lattice.scoring (scored S.Lattice.stands window) (scored S.Lattice.stands self) result }
    {
        equal(window.clamp(self.lo), window.clamp(self.hi))
    }

    /// The bracket with these two codes, or none if either is no score's code or the bracket does not decide the window.
    pub fn read_deciding(lo: u64, hi: u64, window: Bracket<S>) -> Option<Bracket<S>>
        ensures { standing (scored S.Lattice.stands) result ≡ read_decided S.Lattice.scoring lo hi (scored S.Lattice.stands window) }
    {
        let bracket = Bracket {
            lo: S::read(lo)?,
            hi: S::read(hi)?,
        };
        bracket.decides(window).then_some(bracket)
    }
}
