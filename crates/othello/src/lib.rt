#![tactic(auto)]

ghost use Rattle.othello.specs.Endings.{CodesPin, Grows};

use game::Played;

mod helpers;
mod laws;
mod moving;
mod parts;
mod playing;
mod position;
mod setting;

pub use laws::{
    fresh_is_its_text, minimax_is_forcing, play_follows, reading_sets, trees_are_positions,
};
pub use parts::current;
pub use position::Position;
pub use setting::set_up;

/// An Othello ending that is played.
pub type Othello = Played<Position>;

/// The tree of a position is finite: its root, and below it the trees of the positions that its moves lead to.
pub fn tree_grows()
    ensures { Grows }
{}

/// A code tells everything of a position: the discs, the mover, the attacker and the aim.
pub fn codes_pin()
    ensures { CodesPin }
{}
