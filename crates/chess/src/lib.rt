#![tactic(auto)]

use game::Played;

mod coding;
mod laws;
mod level;
mod levels;
mod parts;
mod playing;
mod problem;
mod problems;
mod texts;

pub use coding::codes_tell;
pub use laws::{
    fresh_is_its_text, minimax_is_mate, play_follows, reading_means, trees_are_positions,
};
pub use level::Level;
pub use parts::current;
pub use problem::Problem;

/// A game of chess: a path of positions with their moves.
pub type Chess = Played<Level>;
