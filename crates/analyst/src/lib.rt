//! The analyst: a game with a table and a policy, and calls that search it. A search can be stopped after any step and
//! gone on with later; whatever calls come in whatever order, no false answer is handed out.

#![tactic(auto)]

pub mod analyst;
pub mod ended;
pub mod promise;
pub mod refusal;

pub use analyst::Analyst;
pub use analyst::ticket::{RefusedEnd, Ticket};
pub use ended::{Ended, Ran};
pub use refusal::Refusal;
