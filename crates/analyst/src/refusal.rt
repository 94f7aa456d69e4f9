//! Why a call is refused.

ghost use Rattle.std.specs.Prelude.{◌≡◌};
ghost use Rattle.analyst.specs.Questions.{number_of};

/// Each call asks its questions in the order of their numbers; the first whose answer is no is why it is refused.
/// A refused call changes nothing.
#[derive(Clone, Copy, PartialEq, Eq, Debug)]
pub enum Refusal {
    /// A search is open.
    SearchOpen = 1,
    /// There is no child at this place.
    NoSuchPlace = 2,
    /// There is no move to take back.
    NothingToTakeBack = 3,
    /// The job is 0, or not above every job accepted before.
    JobNotNew = 4,
    /// The lower end of the window is not at or below its upper end.
    WindowNotOrdered = 5,
    /// The stack is not free.
    StackNotFree = 6,
    /// The stack has fewer places than the height of the position and one more.
    StackTooSmall = 7,
    /// No search is open, or the ticket or the stack is not that of the open one as the last call left it.
    NotThisSearch = 8,
}

impl Refusal {
    /// The number of the question.
    // Stays a method: the number is promised by this name, and a From beside it would say it twice.
    pub fn number(self) -> u8
        ensures { result ≡ number_of self }
    {
        self as u8
    }
}
