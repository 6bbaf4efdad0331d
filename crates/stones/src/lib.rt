#![tactic(auto)]

use game::Played;

mod pile;
mod play;

pub use pile::Pile;

/// A game with a pile of stones: each move takes one or two, and whoever takes the last wins.
pub type Stones = Played<Pile>;
