//! The search of a problem's first position.

ghost use Rattle.std.specs.Prelude.{◌≡◌, length, IfOk, string_bytes};
ghost use Rattle.findings.specs.Findings.{solved_text};
ghost use Rattle.deals.specs.Games.{game_line};
ghost use Rattle.findings.specs.Searched.{granted, searched as search_of};

use crate::found::told;
use answers::shown::Shown;
use deals::{Aim, CardGame};
use lattice::Lattice;
use policies::{Highest, Recent};
use search::{Frame, SearchStack};
use solver::solve;
use std::alloc::{AllocError, Global};
use tables::{Direct, Front};

/// The line for the search of a game with Front over Direct with 61 places, Recent over Highest, and a stack over 65 frames.
pub(crate) fn searched<A: Aim>(
    heap: Global,
    number: u64,
    game: CardGame<A>,
    frames: &mut [Frame<A::Score>],
    steps: u32,
) -> Result<String, AllocError>
where
    A::Score: Shown,
    requires frames { length frames.old ≡ 65 }
    requires steps { steps ≡ granted }
    ensures { IfOk result (λ s. string_bytes s ≡ solved_text A.Score.Lattice.scoring A.Score.Shown.letter A.Score.Shown.shown number
        (search_of A.Score.Lattice.scoring A.Score.Lattice.stands (game_line A.worth game) number granted)) }
{
    let mut places = [None; 61];
    let mut stack = SearchStack::new(frames);
    let table = Front::new(Direct::new(&mut places));
    let solved = solve(game, table, Recent::new(Highest), number, &mut stack, steps);
    told(heap, number, solved)
}
