#![tactic(auto)]

mod answer;
mod attempt;
mod call;
mod follow;
mod page;
mod ply;
mod solver;
mod stop;
mod write;

pub use answer::Solution;
pub use call::{BYTES, solve};
