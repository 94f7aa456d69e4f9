//! What becomes of a frame, and what it says of its position.

ghost use Rattle.std.specs.Prelude.{◌≡◌};
ghost use Rattle.lattice.specs.Windows.{scored};
ghost use Rattle.search.specs.Steps.{blank, opened, narrowed, cut, folded, marked, refound};
ghost use Rattle.search.specs.Stacks.{framed};

use crate::frame::Frame;
use bitsets::BitSet;
use games::Side;
use lattice::Lattice;
use lattice::bracket::Bracket;

/// The bracket with one more child's, by the side to move; a position that is over has no child.
// Stays a match with joins and meets: `Side::better` asks the side twice, and a search did two percent more instructions.
fn fold<S: Lattice>(side: Option<Side>, found: Bracket<S>, child: Bracket<S>) -> Bracket<S>
    ensures { scored S.Lattice.stands result ≡ folded S.Lattice.scoring side (scored S.Lattice.stands found) (scored S.Lattice.stands child) }
{
    match side {
        Some(Side::Max) => Bracket {
            lo: found.lo.join(child.lo),
            hi: found.hi.join(child.hi),
        },
        Some(Side::Min) => Bracket {
            lo: found.lo.meet(child.lo),
            hi: found.hi.meet(child.hi),
        },
        None => found,
    }
}

impl<S: Lattice> Frame<S> {
    /// The frame of no position, for a place of a stack.
    pub fn blank() -> Frame<S>
        ensures { framed S.Lattice.stands result ≡ blank S.Lattice.scoring }
    {
        Frame {
            window: Bracket::whole(),
            found: Bracket::whole(),
            taken: BitSet::EMPTY,
            last: None,
        }
    }

    /// The frame of a position before its first child.
    pub fn opened(window: Bracket<S>, side: Side) -> Frame<S>
        ensures { framed S.Lattice.stands result ≡ opened S.Lattice.scoring (scored S.Lattice.stands window) side }
    {
        Frame {
            window,
            found: Bracket::point(side.start()),
            taken: BitSet::EMPTY,
            last: None,
        }
    }

    /// The window for the next child.
    pub fn narrowed(self, side: Side) -> Bracket<S>
        ensures { scored S.Lattice.stands result ≡ narrowed S.Lattice.scoring side (framed S.Lattice.stands self) }
    {
        let window = self.window;
        let found = self.found;
        match side {
            Side::Max => Bracket {
                lo: window.lo.join(found.lo),
                hi: window.hi,
            },
            Side::Min => Bracket {
                lo: window.lo,
                hi: window.hi.meet(found.hi),
            },
        }
    }

    /// The bracket of a position that a cut closes.
    pub fn cut(self, side: Side) -> Bracket<S>
        ensures { scored S.Lattice.stands result ≡ cut S.Lattice.scoring side (framed S.Lattice.stands self) }
    {
        let found = self.found;
        match side {
            Side::Max => Bracket {
                lo: found.lo,
                hi: S::top(),
            },
            Side::Min => Bracket {
                lo: S::bottom(),
                hi: found.hi,
            },
        }
    }

    /// The frame once the child at a place is taken.
    pub fn marked(self, place: u32) -> Frame<S>
        ensures { result ≡ marked self place }
    {
        Frame {
            taken: self.taken.with(place),
            last: Some(place),
            ..self
        }
    }

    /// The frame with one more child's bracket in what it has found.
    pub fn absorbed(self, side: Option<Side>, child: Bracket<S>) -> Frame<S>
        ensures { framed S.Lattice.stands result ≡ refound (framed S.Lattice.stands self) (folded S.Lattice.scoring side (scored S.Lattice.stands self.found) (scored S.Lattice.stands child)) }
    {
        Frame {
            found: fold(side, self.found, child),
            ..self
        }
    }
}
