//! One step of a search.

ghost use Rattle.std.specs.Prelude.{◌≡◌};
ghost use Rattle.lattice.specs.Scores.{standing};
ghost use Rattle.lattice.specs.Windows.{scored};
ghost use Rattle.games.specs.Trees.{key_of};
ghost use Rattle.search.specs.declared.frame.Hand.TheVariants.{Enter, Holding, Nothing};
ghost use Rattle.search.specs.Steps.{shut, claim as claim_of, claimed, noticed};
ghost use Rattle.search.specs.Bounds.{search_of, closed_of, stepped_by_of, stepped_of, StepKeepsOf};
ghost use Rattle.search.specs.Stacks.{frames, job_of, tail, all_framed};

use crate::engine::Engine;
use crate::frame::{Frame, Hand, Progress};
use crate::stack::SearchStack;
use games::{Game, Key};
use lattice::Lattice;
use lattice::bracket::Bracket;
use policies::Policy;
use tables::{Claim, Table};

/// Whether nothing is left of a window to ask about.
fn is_shut<S: Lattice>(window: Bracket<S>) -> bool
    ensures { result ≡ shut S.Lattice.scoring (scored S.Lattice.stands window) }
{
    window.hi.at_or_below(window.lo)
}

/// The claim that a position has a bracket.
fn claim<S: Lattice>(key: Key, bracket: Bracket<S>) -> Claim
    ensures { result ≡ claim_of S.Lattice.scoring key (scored S.Lattice.stands bracket) }
{
    Claim {
        key,
        lo: bracket.lo.code(),
        hi: bracket.hi.code(),
    }
}

impl<G: Game, T: Table, P: Policy> Engine<G, T, P> {
    /// The bracket of the table's claim for the present position, if it decides the window.
    fn known(&self, window: Bracket<G::Score>) -> Option<Bracket<G::Score>>
        ensures { standing (scored G.Score.Lattice.stands) result
            ≡ claimed G.Score.Lattice.scoring (scored G.Score.Lattice.stands window)
            (T.Table.ops.answer (T.Table.model self.now.table) (key_of (G.Game.line self.now.game).present)) }
    {
        let claim = self.table.ask(self.game.key())?;
        Bracket::read_deciding(claim.lo, claim.hi, window)
    }

    /// Tells the policy of the child taken last, if there is one.
    fn notice(&mut self, depth: u32, last: Option<u32>)
        ensures game { self.new.game ≡ self.old.game }
        ensures table { self.new.table ≡ self.old.table }
        ensures policy { P.Policy.model self.new.policy ≡ noticed P.Policy.ops (P.Policy.model self.old.policy) depth last }
    {
        if let Some(place) = last {
            self.policy.notice(depth, place);
        }
    }

    /// Closes the present position: its claim is put, its frame leaves the stack, and its bracket is in hand.
    fn close(
        &mut self,
        stack: &mut SearchStack<'_, G::Score>,
        progress: &mut Progress<G::Score>,
        bracket: Bracket<G::Score>,
    )
        ensures state { search_of G.Game T.Table P.Policy self.new stack.new progress.new
            ≡ closed_of G.Score.Lattice T.Table (search_of G.Game T.Table P.Policy self.old stack.old progress.old)
            (P.Policy.model self.old.policy)
            (all_framed G.Score.Lattice.stands (tail (frames stack.old)))
            (scored G.Score.Lattice.stands bracket) }
        ensures job { job_of stack.new ≡ job_of stack.old }
    {
        self.table.put(claim(self.game.key(), bracket));
        stack.pop();
        progress.hand = Hand::Holding(bracket);
    }

    /// Enters the present position: over, known to the table, or with a frame of its own.
    fn enter(
        &self,
        stack: &mut SearchStack<'_, G::Score>,
        progress: &mut Progress<G::Score>,
        window: Bracket<G::Score>,
    )
        ensures state { search_of G.Game T.Table P.Policy self.now stack.new progress.new
            ≡ stepped_by_of G.Score.Lattice T.Table P.Policy (search_of G.Game T.Table P.Policy self.now stack.old progress.old)
            (Enter (scored G.Score.Lattice.stands window)) }
        ensures job { job_of stack.new ≡ job_of stack.old }
    {
        if let Some(score) = self.game.score() {
            progress.enter(Hand::Holding(Bracket::point(score)));
        } else if let Some(side) = self.game.side() {
            if let Some(bracket) = self.known(window) {
                progress.use_claim(Hand::Holding(bracket));
            } else if stack.push(Frame::opened(window, side)) {
                progress.enter(Hand::Nothing);
            }
        }
    }

    /// Takes back, and gives the bracket of the child to its parent.
    fn absorb(
        &mut self,
        stack: &mut SearchStack<'_, G::Score>,
        progress: &mut Progress<G::Score>,
        bracket: Bracket<G::Score>,
    )
        ensures state { search_of G.Game T.Table P.Policy self.new stack.new progress.new
            ≡ stepped_by_of G.Score.Lattice T.Table P.Policy (search_of G.Game T.Table P.Policy self.old stack.old progress.old)
            (Holding (scored G.Score.Lattice.stands bracket)) }
        ensures job { job_of stack.new ≡ job_of stack.old }
    {
        if let Some(frame) = stack.top() {
            if self.game.take_back() {
                stack.replace(frame.absorbed(self.game.side(), bracket));
                progress.hand = Hand::Nothing;
            }
        }
    }

    /// Goes on with the newest frame: closes it by a cut or with all its children taken, or plays the next child.
    fn resume(&mut self, stack: &mut SearchStack<'_, G::Score>, progress: &mut Progress<G::Score>)
        ensures state { search_of G.Game T.Table P.Policy self.new stack.new progress.new
            ≡ stepped_by_of G.Score.Lattice T.Table P.Policy (search_of G.Game T.Table P.Policy self.old stack.old progress.old) Nothing }
        ensures job { job_of stack.new ≡ job_of stack.old }
    {
        if let Some(frame) = stack.top() {
            if let Some(side) = self.game.side() {
                let depth = stack.depth();
                let window = frame.narrowed(side);
                if is_shut(window) {
                    self.notice(depth, frame.last);
                    self.close(stack, progress, frame.cut(side));
                } else if let Some(place) = self
                    .policy
                    .choose(depth, frame.taken, self.game.children())
                {
                    if self.game.play(place) {
                        stack.replace(frame.marked(place));
                        progress.hand = Hand::Enter(window);
                    }
                } else {
                    self.close(stack, progress, frame.found);
                }
            }
        }
    }

    /// Does one step of a search. In a state that no search comes to, nothing changes.
    pub fn step(&mut self, stack: &mut SearchStack<'_, G::Score>, progress: &mut Progress<G::Score>)
        ensures state { search_of G.Game T.Table P.Policy self.new stack.new progress.new
            ≡ stepped_of G.Score.Lattice T.Table P.Policy (search_of G.Game T.Table P.Policy self.old stack.old progress.old) }
        ensures kept { StepKeepsOf G.Score.Lattice T.Table
            (search_of G.Game T.Table P.Policy self.old stack.old progress.old)
            (search_of G.Game T.Table P.Policy self.new stack.new progress.new) }
        ensures job { job_of stack.new ≡ job_of stack.old }
    {
        // Stays a match: each kind of hand gives its step a value of its own, which a table of functions could not take.
        match progress.hand {
            Hand::Enter(window) => self.enter(stack, progress, window),
            Hand::Holding(bracket) => self.absorb(stack, progress, bracket),
            Hand::Nothing => self.resume(stack, progress),
        }
    }
}
