//! What an analyst asks of its open search.

ghost use Rattle.std.specs.Prelude.{◌≡◌};
ghost use Rattle.lattice.specs.Scores.{standing};
ghost use Rattle.lattice.specs.Windows.{scored};
ghost use Rattle.analyst.specs.Calls.{is_free, opening, matches, value_of, ending};
ghost use Rattle.analyst.specs.Model.{open_of, stack_of, ended_of};

use crate::analyst::Open;
use crate::ended::Ended;
use lattice::Lattice;
use lattice::bracket::Bracket;
use search::{Hand, Progress, SearchStack};

/// Whether a stack is free, as a new one is.
#[tactic(auto, using(crate::proofs::Closing::as_many))]
pub(crate) fn is_free<S: Lattice>(stack: &SearchStack<'_, S>) -> bool
    ensures { result ≡ is_free (stack_of stack.now) }
{
    stack.job() == 0 && stack.len() == 0
}

#[tactic(auto, using(crate::proofs::Closing::as_many))]
impl<S: Lattice> Open<S> {
    /// A search that has not done a step.
    pub(crate) fn opening(job: u64, window: Bracket<S>, places: u32) -> Open<S>
        ensures { open_of S.Lattice.stands result ≡ opening job (scored S.Lattice.stands window) places }
    {
        Open {
            job,
            window,
            progress: Progress::new(window),
            places,
            depth: 0,
        }
    }

    /// Whether a ticket's job and a stack are those of this search, the stack as the last call left it.
    pub(crate) fn matches(&self, job: u64, stack: &SearchStack<'_, S>) -> bool
        ensures { result ≡ matches (open_of S.Lattice.stands self.now) job (stack_of stack.now) }
    {
        job == self.job
            && stack.job() == self.job
            && stack.room() == self.places
            && stack.len() == self.depth
    }

    /// The value of the search, if it is finished: the clamp of the lower end of the bracket in hand.
    fn value(&self, stack: &SearchStack<'_, S>) -> Option<S>
        ensures { standing S.Lattice.stands result
            ≡ value_of S.Lattice.scoring (open_of S.Lattice.stands self.now).window (stack_of stack.now).frames
            (open_of S.Lattice.stands self.now).progress.hand }
    {
        match self.progress.hand {
            Hand::Holding(bracket) if stack.len() == 0 => Some(self.window.clamp(bracket.lo)),
            _ => None,
        }
    }

    /// What there is to tell of the search.
    pub(crate) fn ended(&self, stack: &SearchStack<'_, S>) -> Ended<S>
        ensures { ended_of S.Lattice.stands result
            ≡ ending S.Lattice.scoring (open_of S.Lattice.stands self.now) (stack_of stack.now) }
    {
        Ended {
            entered: self.progress.entered,
            used: self.progress.used,
            value: self.value(stack),
        }
    }
}
