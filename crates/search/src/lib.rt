//! A search of a game by windows: one step of it, and runs of steps that can stop and go on at any point.

#![tactic(auto)]

pub mod engine;
pub mod frame;
pub mod promise;
pub mod stack;

pub use engine::Engine;
pub use frame::{Frame, Hand, Progress};
pub use stack::SearchStack;
