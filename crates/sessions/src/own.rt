//! A search with its own ticket and stack. A program that keeps to it needs no answer for a refused end: the proofs show
//! that there is none.

ghost use Rattle.std.specs.Prelude.{◌≡◌, true};
ghost use Rattle.analyst.specs.Model.{state_of, stack_of};
ghost use Rattle.sessions.specs.Owning.{owned};

use analyst::{Analyst, Ticket};
use games::Game;
use policies::Policy;
use search::SearchStack;
use tables::Table;

mod calls;

pub(crate) use calls::end;

/// An open search of an analyst, with its ticket and its stack. It can only be let go by an end of its parts.
pub(crate) struct Own<'a, 'b, G: Game + Drop, T: Table, P: Policy> {
    analyst: &'a mut Analyst<G, T, P>,
    ticket: Ticket,
    stack: &'a mut SearchStack<'b, G::Score>,
    ghost mine: { owned (state_of analyst.now) ticket (stack_of stack.now) ≡ true },
}
