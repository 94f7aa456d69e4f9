//! Solving: one search from beginning to end, and what the value of a plan game says of plans.

#![tactic(auto)]

pub mod once;
pub mod plans;

pub use once::{Solved, solve};
