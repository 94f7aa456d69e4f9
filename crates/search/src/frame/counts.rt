//! How a search comes on.

ghost use Rattle.std.specs.Prelude.{◌≡◌};
ghost use Rattle.search.specs.declared.frame.Hand.TheVariants.{Enter};
ghost use Rattle.search.specs.Steps.{more};

use crate::frame::{Hand, Progress};
use lattice::Lattice;
use lattice::bracket::Bracket;

impl<S: Lattice> Progress<S> {
    /// A search that has not done a step: it is to enter the present position with this window.
    pub fn new(window: Bracket<S>) -> Progress<S>
        ensures { result ≡ record { hand = Enter window; entered = 0; used = 0 } }
    {
        Progress {
            hand: Hand::Enter(window),
            entered: 0,
            used: 0,
        }
    }

    /// One more position is entered, and this is in hand.
    pub fn enter(&mut self, hand: Hand<S>)
        ensures hand { self.new.hand ≡ hand }
        ensures entered { self.new.entered ≡ more self.old.entered }
        ensures used { self.new.used ≡ self.old.used }
    {
        self.entered = self.entered.saturating_add(1);
        self.hand = hand;
    }

    /// One more position is entered, by a claim of the table, whose bracket is in hand.
    pub fn use_claim(&mut self, hand: Hand<S>)
        ensures hand { self.new.hand ≡ hand }
        ensures entered { self.new.entered ≡ more self.old.entered }
        ensures used { self.new.used ≡ more self.old.used }
    {
        self.used = self.used.saturating_add(1);
        self.enter(hand);
    }
}
