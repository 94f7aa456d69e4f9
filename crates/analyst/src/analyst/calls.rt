//! The calls that need no ticket.

ghost use Rattle.std.specs.Prelude.{◌≡◌, [], ◌∷◌};
ghost use Rattle.analyst.specs.declared.refusal.Refusal.TheVariants.{SearchOpen};
ghost use Rattle.analyst.specs.Questions.{◌unless◌, asked};
ghost use Rattle.analyst.specs.Calls.{makes, plays, takes_back, clears, none_open, answered, left};
ghost use Rattle.analyst.specs.Model.{state_of};
ghost use Rattle.analyst.specs.Bounds.{load_of};

use crate::analyst::Analyst;
use crate::refusal::Refusal;
use games::Game;
use lattice::Lattice;
use policies::Policy;
use search::Engine;
use tables::Table;

impl<G: Game + Drop, T: Table, P: Policy> Analyst<G, T, P> {
    /// An analyst of a game. Its table is cleared: the claims that it holds may be another game's.
    pub fn new(game: G, table: T, policy: P) -> Analyst<G, T, P>
        ensures { state_of result ≡ makes T.Table.ops (G.Game.line game) (T.Table.model table) (P.Policy.model policy) }
    {
        let mut cleared = table;
        cleared.clear();
        Analyst {
            engine: Engine {
                game,
                table: cleared,
                policy,
            },
            jobs: 0,
            search: None,
        }
    }

    /// Refused (1) while a search is open.
    pub(crate) fn at_rest(&self) -> Result<(), Refusal>
        ensures { result ≡ asked (SearchOpen unless none_open (state_of self.now).search ∷ []) tt }
    {
        if self.search.is_some() {
            return Err(Refusal::SearchOpen);
        }
        Ok(())
    }

    /// Puts another game in the place of the present one, and clears the table.
    /// Refused (1) while a search is open; the game offered is then gone.
    pub fn load(&mut self, game: G) -> Result<(), Refusal>
        ensures answer { result ≡ answered (λ _. tt) (load_of self.old game) }
        ensures leaves { state_of self.new ≡ left (λ a. a) (state_of self.old) (load_of self.old game) }
    {
        self.at_rest()?;
        self.engine.game = game;
        self.clear();
        Ok(())
    }

    /// Plays to the child at a place. Refused (1) while a search is open, (2) where there is no child at the place.
    pub fn play(&mut self, place: u32) -> Result<(), Refusal>
        ensures answer { result ≡ answered (λ _. tt) (plays (state_of self.old) place) }
        ensures leaves { state_of self.new ≡ left (λ a. a) (state_of self.old) (plays (state_of self.old) place) }
    {
        self.at_rest()?;
        if self.engine.game.play(place) {
            Ok(())
        } else {
            Err(Refusal::NoSuchPlace)
        }
    }

    /// Takes the last play back. Refused (1) while a search is open, (3) at the loaded position.
    pub fn take_back(&mut self) -> Result<(), Refusal>
        ensures answer { result ≡ answered (λ _. tt) (takes_back (state_of self.old)) }
        ensures leaves { state_of self.new ≡ left (λ a. a) (state_of self.old) (takes_back (state_of self.old)) }
    {
        self.at_rest()?;
        if self.engine.game.take_back() {
            Ok(())
        } else {
            Err(Refusal::NothingToTakeBack)
        }
    }

    /// Clears the table. It is never refused; an open search stays open.
    pub fn clear(&mut self)
        ensures { state_of self.new ≡ clears T.Table.ops (state_of self.old) }
    {
        self.engine.table.clear();
    }
}
