//! The states of play before the present one.

ghost use Rattle.std.specs.Prelude.{◌≡◌, ◌<◌, [], ◌∷◌, length, MatchOption};
ghost use Rattle.deals.specs.States.{play_of};

use crate::state::State;
use std::marker::Model;

/// The states that came before, in the first `count` places. In clauses it is their list, the latest first.
// Stays an array with a count: a play takes no memory, so it cannot fail for want of it.
#[derive(Drop)]
pub struct Past {
    states: [State; 52],
    count: usize,
}

impl Model for Past {
    ghost use Rattle.std.specs.Prelude.{◌≡◌, ◌≤◌, List, length};
    ghost use Rattle.cardplay.specs.Cards.{Play};

    ghost Value = { List Play };

    ghost use Rattle.deals.specs.States.{earlier_plays};

    ghost view = { λ p. earlier_plays p.states p.count };

    ghost invariant = { λ p. (length p.states ≡ 52) × (p.count ≤ 52) };
}

impl Past {
    /// No states; the places are filled with one that does not count.
    #[inline(always)]
    pub(crate) fn new(filler: State) -> Past
        ensures { result ≡ [] }
    {
        Past {
            states: [filler; 52],
            count: 0,
        }
    }

    /// Puts one more state.
    pub(crate) fn push(&mut self, state: State)
        requires { length self.old < 52 }
        ensures { self.new ≡ play_of state ∷ self.old }
    {
        self.states[self.count] = state;
        self.count += 1;
    }

    /// Takes the latest state; none where there is none.
    pub(crate) fn pop(&mut self) -> Option<State>
        ensures { MatchOption result ((self.old ≡ []) × (self.new ≡ [])) (λ s. self.old ≡ play_of s ∷ self.new) }
    {
        if self.count == 0 {
            return None;
        }
        self.count -= 1;
        Some(self.states[self.count])
    }
}
