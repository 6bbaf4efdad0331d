#![tactic(auto)]

mod after;
mod diagram;
mod generation;
mod laws;
mod list;
mod pawns;
mod reading;
mod step;

pub use after::play;
pub use diagram::Diagram;
pub use generation::{has_move, moves};
pub use laws::moves_leave;
pub use list::{MOST, MoveList};
pub use pawns::forward;
pub use step::{Move, Promotion};
