//! Card games: the course of play, and what the players are after.

ghost use Rattle.std.specs.Prelude.{◌≡◌};
ghost use Rattle.cards.specs.Codes.{card_code};
ghost use Rattle.lines.specs.Told.{deal_of, on_ok};
ghost use Rattle.deals.specs.Dealing.{dealt_of};
ghost use Rattle.deals.specs.Stands.{CardAt, PlaceOf};
ghost use Rattle.deals.specs.Games.{game_stand, game_line, game_lawful};
ghost use Rattle.deals.specs.Opened.{opened, game_opened};

use crate::aim::Aim;
use crate::course::Course;
use crate::wrong::WrongGoal;
use cards::Card;
use games::{Game, Key, Side};
use lines::Problem;

/// The course of play of a problem's deal, and the aim that the problem sets.
#[derive(Drop)]
pub struct CardGame<A> {
    course: Course,
    aim: A,
}

impl<A: Aim> CardGame<A> {
    /// The game at the first state of a problem's deal; refused where the problem sets no such aim.
    pub fn new(problem: Problem) -> Result<CardGame<A>, WrongGoal>
        ensures { on_ok opened result ≡ game_opened A.aimed (deal_of problem).asked (dealt_of problem) }
    {
        let aim = A::of(problem.goal())?;
        Ok(CardGame {
            course: Course::new(problem),
            aim,
        })
    }

    /// The card that leads to the child at a place; none past the last.
    pub fn card(&self, place: u32) -> Option<Card>
        ensures { CardAt (game_stand self.now) place result }
    {
        self.course.card(place)
    }

    /// The place of the child that a card leads to; none if the card is not legal.
    pub fn place(&self, card: Card) -> Option<u32>
        ensures { PlaceOf (game_stand self.now) (card_code card) result }
    {
        self.course.place(card)
    }
}

impl<A: Aim> Game for CardGame<A> {
    type Score = A::Score;

    ghost line = { game_line A.worth };

    ghost lawful = { game_lawful A.worth };

    fn side(&self) -> Option<Side> {
        self.course.side()
    }

    fn children(&self) -> u32 {
        self.course.children()
    }

    fn score(&self) -> Option<A::Score> {
        if !self.course.is_over() {
            return None;
        }
        Some(self.aim.score(&self.course))
    }

    fn key(&self) -> Key {
        self.course.key()
    }

    fn height(&self) -> u32 {
        self.course.height()
    }

    fn play(&mut self, place: u32) -> bool {
        self.course.play(place)
    }

    fn take_back(&mut self) -> bool {
        self.course.take_back()
    }
}
