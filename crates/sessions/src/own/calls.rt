//! The calls of a search with its own ticket and stack.

ghost use Rattle.std.specs.Prelude.{◌≡◌, ◌≢◌, true};
ghost use Rattle.search.specs.Stacks.{job_of};
ghost use Rattle.analyst.specs.Model.{state_of, stack_of};
ghost use Rattle.sessions.specs.Owning.{owned};

use crate::own::Own;
use analyst::{Analyst, Ended, Ran, Refusal, RefusedEnd, Ticket};
use games::Game;
use lattice::bracket::Bracket;
use policies::Policy;
use search::SearchStack;
use tables::Table;

impl<'a, 'b, G: Game + Drop, T: Table, P: Policy> Own<'a, 'b, G, T, P> {
    /// Begins a search.
    pub(crate) fn begin(
        analyst: &'a mut Analyst<G, T, P>,
        job: u64,
        window: Bracket<G::Score>,
        stack: &'a mut SearchStack<'b, G::Score>,
    ) -> Result<Own<'a, 'b, G, T, P>, Refusal> {
        let ticket = analyst.begin(job, window, stack)?;
        Ok(Own {
            analyst,
            ticket,
            stack,
        })
    }

    /// Goes on with the search.
    pub(crate) fn run(&mut self, steps: u32) -> Ran {
        self.analyst.run(&self.ticket, self.stack, steps).unwrap()
    }

    /// Clears the table.
    pub(crate) fn clear(&mut self) {
        self.analyst.clear();
    }

    /// The mark of the stack.
    pub(crate) fn job(&self) -> u64
        ensures { result ≡ job_of self.now.stack.now }
    {
        self.stack.job()
    }

    /// What load answers.
    pub(crate) fn load(&mut self, game: G) -> Result<(), Refusal> {
        self.analyst.load(game)
    }

    /// What play answers.
    pub(crate) fn play(&mut self) -> Result<(), Refusal> {
        self.analyst.play(0)
    }

    /// What take back answers.
    pub(crate) fn take_back(&mut self) -> Result<(), Refusal> {
        self.analyst.take_back()
    }

    /// Why begin is refused.
    pub(crate) fn begin_again(
        &mut self,
        job: u64,
        window: Bracket<G::Score>,
        other: &mut SearchStack<'_, G::Score>,
    ) -> Refusal {
        match self.analyst.begin(job, window, other) {
            Ok(_) => unreachable(),
            Err(refusal) => refusal,
        }
    }

    /// What another analyst answers where it is to begin on the stack; it begins nothing where the stack has no mark.
    pub(crate) fn begin_on_busy(
        &mut self,
        second: &mut Analyst<G, T, P>,
        window: Bracket<G::Score>,
    ) -> Result<(), Refusal> {
        if self.stack.job() == 0 {
            return Ok(());
        }
        match second.begin(1, window, self.stack) {
            Ok(_) => unreachable(),
            Err(refusal) => Err(refusal),
        }
    }

    /// What run answers on a stack with another mark; nothing is run where the marks are the same.
    pub(crate) fn run_elsewhere(
        &mut self,
        other: &mut SearchStack<'_, G::Score>,
    ) -> Result<(), Refusal> {
        if other.job() == self.stack.job() {
            return Ok(());
        }
        match self.analyst.run(&self.ticket, other, 1) {
            Ok(_) => Ok(()),
            Err(refusal) => Err(refusal),
        }
    }

    /// Why an end on a stack with another mark is refused, which hands the ticket back.
    pub(crate) fn end_elsewhere(
        self,
        other: &mut SearchStack<'_, G::Score>,
    ) -> (Refusal, Own<'a, 'b, G, T, P>)
        requires { job_of other.old ≢ job_of self.stack.now }
    {
        let Own {
            analyst,
            ticket,
            stack,
        } = self;
        let RefusedEnd { refusal, ticket } = analyst.end(ticket, other).unwrap_err();
        let own = Own {
            analyst,
            ticket,
            stack,
        };
        (refusal, own)
    }

    /// The analyst, the ticket and the stack, for the end of the search.
    // Stays apart from the end: as one method its proof did not close, since a search is open also where a method returns.
    pub(crate) fn parts(
        self,
    ) -> (
        &'a mut Analyst<G, T, P>,
        Ticket,
        &'a mut SearchStack<'b, G::Score>,
    )
        ensures { owned (state_of result.0.now) result.1 (stack_of result.2.now) ≡ true }
    {
        let Own {
            analyst,
            ticket,
            stack,
        } = self;
        (analyst, ticket, stack)
    }
}

/// Ends a search by its parts.
pub(crate) fn end<G: Game + Drop, T: Table, P: Policy>(
    analyst: &mut Analyst<G, T, P>,
    ticket: Ticket,
    stack: &mut SearchStack<'_, G::Score>,
) -> Ended<G::Score>
    requires { owned (state_of analyst.old) ticket (stack_of stack.old) ≡ true }
{
    analyst.end(ticket, stack).unwrap()
}
