//! Runs of steps.

ghost use Rattle.std.specs.Prelude.{◌≡◌};
ghost use Rattle.search.specs.Steps.{rests};
ghost use Rattle.search.specs.Bounds.{search_of, ran_of, done_of, RunKeepsOf};
ghost use Rattle.search.specs.Stacks.{frames, job_of};

use crate::engine::Engine;
use crate::frame::{Hand, Progress};
use crate::stack::SearchStack;
use games::Game;
use lattice::Lattice;
use policies::Policy;
use tables::Table;

/// Whether a search is finished: no position is open, and a bracket is in hand.
pub fn is_finished<S: Lattice>(stack: &SearchStack<'_, S>, progress: &Progress<S>) -> bool
    ensures { result ≡ rests (frames stack.now) progress.now.hand }
{
    match progress.hand {
        Hand::Holding(_) => stack.len() == 0,
        Hand::Enter(_) | Hand::Nothing => false,
    }
}

impl<G: Game, T: Table, P: Policy> Engine<G, T, P> {
    /// Does up to so many steps, fewer where the search is finished before. The answer is the number done.
    pub fn run(
        &mut self,
        stack: &mut SearchStack<'_, G::Score>,
        progress: &mut Progress<G::Score>,
        steps: u32,
    ) -> u32
        ensures state { search_of G.Game T.Table P.Policy self.new stack.new progress.new
            ≡ ran_of G.Score.Lattice T.Table P.Policy steps (search_of G.Game T.Table P.Policy self.old stack.old progress.old) }
        ensures done { result ≡ done_of G.Score.Lattice T.Table P.Policy steps
            (search_of G.Game T.Table P.Policy self.old stack.old progress.old) }
        ensures kept { RunKeepsOf G.Score.Lattice T.Table P.Policy steps
            (search_of G.Game T.Table P.Policy self.old stack.old progress.old)
            (search_of G.Game T.Table P.Policy self.new stack.new progress.new) }
        ensures job { job_of stack.new ≡ job_of stack.old }
    {
        for count in 0..steps {
            if is_finished(stack, progress) {
                return count;
            }
            self.step(stack, progress);
        }
        steps
    }
}
