//! The reader of problem lines.

#![tactic(auto)]

pub mod deal;
pub mod fault;
pub mod fields;
pub mod problem;
pub mod reader;
pub mod spelling;

pub use deal::{Goal, Layout, Seat, Target};
pub use fault::{Fault, FaultKind, Place};
pub use fields::{Field, Fields};
pub use problem::Problem;
pub use reader::read;
