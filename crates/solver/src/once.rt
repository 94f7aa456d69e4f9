//! A search of a game from beginning to end.

ghost use Rattle.std.specs.Prelude.{◌≡◌};
ghost use Rattle.solver.specs.Solving.{is_finished, solved_of};
ghost use Rattle.solver.specs.Bounds.{solves_of, SolvesRightOf, SolvesToEndOf};

use analyst::{Analyst, Ended, Ran, Refusal};
use games::Game;
use lattice::Lattice;
use lattice::bracket::Bracket;
use policies::Policy;
use search::SearchStack;
use tables::Table;

/// What a search found: the steps that it did, and what its end answered. The value there is told if it is finished.
#[derive(Clone, Copy)]
pub struct Solved<S: Lattice> {
    pub steps: u32,
    pub ended: Ended<S>,
}

impl<S: Lattice> Solved<S> {
    /// Whether the search is finished.
    pub fn is_finished(&self) -> bool
        ensures { result ≡ is_finished self.now }
    {
        self.ended.value.is_some()
    }
}

/// What there is to tell of a search.
fn told<S: Lattice>(ran: Ran, ended: Ended<S>) -> Solved<S>
    ensures { result ≡ record { steps = ran.steps; ended = ended } }
{
    Solved {
        steps: ran.steps,
        ended,
    }
}

/// Searches the present position of a game with a fresh analyst and the whole window: begin, one run of so many steps,
/// and end. Refused (4) with job 0, (6) where the stack is not free, (7) where it has fewer places than the height of
/// the position and one more.
///
/// The value is there exactly if the search is finished, itself at its end: its stack is empty, and it holds a bracket.
/// It is then the plain value of the position.
pub fn solve<G: Game + Drop, T: Table + Drop, P: Policy + Drop>(
    game: G,
    table: T,
    policy: P,
    job: u64,
    stack: &mut SearchStack<'_, G::Score>,
    steps: u32,
) -> Result<Solved<G::Score>, Refusal>
    ensures answer { solved_of G.Score.Lattice.stands result ≡ solves_of G.Game T.Table P.Policy game table policy job stack.old steps }
    ensures right { SolvesRightOf G.Score.Lattice G.Game game steps result }
    ensures ends { SolvesToEndOf G.Game T.Table P.Policy game table policy stack.old steps result }
{
    let mut analyst = Analyst::new(game, table, policy);
    let ticket = analyst.begin(job, Bracket::whole(), stack)?;
    let ran = analyst.run(&ticket, stack, steps).unwrap();
    let ended = analyst.end(ticket, stack).unwrap();
    Ok(told(ran, ended))
}
