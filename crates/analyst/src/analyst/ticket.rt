//! Tickets, and the three calls that they are for. Nothing else stands in this module, so nothing else makes a ticket.

ghost use Rattle.std.specs.Prelude.{◌≡◌};
ghost use Rattle.analyst.specs.Calls.{answered, left};
ghost use Rattle.analyst.specs.Model.{state_of, stack_of, end_told, handed_back};
ghost use Rattle.analyst.specs.Bounds.{begin_of, run_of, end_of, RunsRightOf, EndsRightOf};

use crate::analyst::kept::is_free;
use crate::analyst::{Analyst, Open};
use crate::ended::{Ended, Ran};
use crate::refusal::Refusal;
use games::Game;
use lattice::Lattice;
use lattice::bracket::Bracket;
use policies::Policy;
use search::SearchStack;
use search::engine::run::is_finished;
use std::marker::Model;
use tables::Table;

/// The ticket of an open search. Begin gives it, run borrows it, and end takes it; it cannot be copied, and a program
/// that lets it go without handing it to end is refused. It means its job.
pub struct Ticket {
    job: u64,
}

impl Model for Ticket {
    ghost use Rattle.std.specs.Prelude.{ℕ};

    ghost Value = { ℕ };

    ghost view = { λ t. t.job };
}

/// A refused end: why, and the ticket, which is handed back.
pub struct RefusedEnd {
    pub refusal: Refusal,
    pub ticket: Ticket,
}

impl<G: Game + Drop, T: Table, P: Policy> Analyst<G, T, P> {
    /// Begins a search of the present position with a job, a window and a free stack, which it marks with the job.
    /// Refused (1) while a search is open, (4) with a job that is 0 or not above every one accepted before, (5) where the
    /// window's lower end is not at or below its upper, (6) where the stack is not free, (7) where it has fewer places
    /// than the height of the position and one more.
    pub fn begin(
        &mut self,
        job: u64,
        window: Bracket<G::Score>,
        stack: &mut SearchStack<'_, G::Score>,
    ) -> Result<Ticket, Refusal>
        ensures answer { result ≡ answered (λ _. job) (begin_of self.old job window stack.old) }
        ensures leaves { state_of self.new ≡ left (λ y. y.state) (state_of self.old) (begin_of self.old job window stack.old) }
        ensures stack { stack_of stack.new ≡ left (λ y. y.stack) (stack_of stack.old) (begin_of self.old job window stack.old) }
    {
        self.at_rest()?;
        if job <= self.jobs {
            return Err(Refusal::JobNotNew);
        }
        if !window.lo.at_or_below(window.hi) {
            return Err(Refusal::WindowNotOrdered);
        }
        if !is_free(stack) {
            return Err(Refusal::StackNotFree);
        }
        if self.engine.game.height() >= stack.room() {
            return Err(Refusal::StackTooSmall);
        }
        stack.mark(job);
        self.jobs = job;
        self.search = Some(Open::opening(job, window, stack.room()));
        Ok(Ticket { job })
    }

    /// Goes on with the open search, if the ticket and the stack are its own.
    #[tactic(auto, using(crate::proofs::Closing::as_many))]
    fn go_on(
        &mut self,
        ticket: &Ticket,
        stack: &mut SearchStack<'_, G::Score>,
        steps: u32,
    ) -> Result<Ran, Refusal>
        ensures answer { result ≡ answered (λ y. y.answer) (run_of self.old ticket.now stack.old steps) }
        ensures leaves { state_of self.new ≡ left (λ y. y.state) (state_of self.old) (run_of self.old ticket.now stack.old steps) }
        ensures stack { stack_of stack.new ≡ left (λ y. y.stack) (stack_of stack.old) (run_of self.old ticket.now stack.old steps) }
    {
        match &mut self.search {
            Some(open) if open.matches(ticket.job, stack) => {
                let steps = self.engine.run(stack, &mut open.progress, steps);
                open.depth = stack.len();
                Ok(Ran {
                    steps,
                    finished: is_finished(stack, &open.progress),
                })
            }
            _ => Err(Refusal::NotThisSearch),
        }
    }

    /// Does up to so many steps of the search that has the ticket and the stack, fewer where it is finished before.
    /// Refused (8) where no search is open, or the ticket or the stack is not that of the open one as the last call left it.
    ///
    /// Whatever calls led here: once four steps are granted for each position of the tree where the search began, a run
    /// says finished, and all runs together enter no more positions than that tree has.
    pub fn run(
        &mut self,
        ticket: &Ticket,
        stack: &mut SearchStack<'_, G::Score>,
        steps: u32,
    ) -> Result<Ran, Refusal>
        ensures answer { result ≡ answered (λ y. y.answer) (run_of self.old ticket.now stack.old steps) }
        ensures leaves { state_of self.new ≡ left (λ y. y.state) (state_of self.old) (run_of self.old ticket.now stack.old steps) }
        ensures stack { stack_of stack.new ≡ left (λ y. y.stack) (stack_of stack.old) (run_of self.old ticket.now stack.old steps) }
        ensures right { RunsRightOf self.old ticket.now stack.old steps result }
    {
        self.go_on(ticket, stack, steps)
    }

    /// Closes the open search, if the ticket and the stack are its own.
    #[tactic(auto, using(crate::proofs::Closing::plays_told))]
    fn close(
        &mut self,
        ticket: &Ticket,
        stack: &mut SearchStack<'_, G::Score>,
    ) -> Result<Ended<G::Score>, Refusal>
        ensures answer { end_told G.Score.Lattice.stands result ≡ answered (λ y. y.answer) (end_of self.old ticket.now stack.old) }
        ensures leaves { state_of self.new ≡ left (λ y. y.state) (state_of self.old) (end_of self.old ticket.now stack.old) }
        ensures stack { stack_of stack.new ≡ left (λ y. y.stack) (stack_of stack.old) (end_of self.old ticket.now stack.old) }
    {
        match &self.search {
            Some(open) if open.matches(ticket.job, stack) => {
                let ended = open.ended(stack);
                self.engine.rewind(stack, &open.progress);
                stack.free();
                self.search = None;
                Ok(ended)
            }
            _ => Err(Refusal::NotThisSearch),
        }
    }

    /// Ends the search that has the ticket and the stack: the game goes back to where the search began, the stack is free
    /// again, and nothing is put into the table. Refused (8) as a run is; the ticket is then handed back.
    ///
    /// Whatever calls led here: the answer has a value exactly if a run said finished, and it is the clamp, in the window,
    /// of the plain value of the position where the search began; and it tells how many positions were entered.
    pub fn end(
        &mut self,
        ticket: Ticket,
        stack: &mut SearchStack<'_, G::Score>,
    ) -> Result<Ended<G::Score>, RefusedEnd>
        ensures answer { end_told G.Score.Lattice.stands result ≡ handed_back ticket (answered (λ y. y.answer) (end_of self.old ticket stack.old)) }
        ensures leaves { state_of self.new ≡ left (λ y. y.state) (state_of self.old) (end_of self.old ticket stack.old) }
        ensures stack { stack_of stack.new ≡ left (λ y. y.stack) (stack_of stack.old) (end_of self.old ticket stack.old) }
        ensures right { EndsRightOf self.old stack.old result }
    {
        match self.close(&ticket, stack) {
            Ok(ended) => {
                let Ticket { job: _ } = ticket;
                Ok(ended)
            }
            Err(refusal) => Err(RefusedEnd { refusal, ticket }),
        }
    }
}
