//! Why a game does not take a problem.

/// What a problem asks for, where a game asks for something else.
#[derive(Clone, Copy, PartialEq, Eq, Debug)]
pub enum WrongGoal {
    Tricks,
    Plan,
}
