ghost use Rattle.std.specs.Prelude.{◌≡◌, ◌^◌, ◌<◌, ◌≤◌, bit_and};
ghost use Rattle.othello_rules.specs.Diagrams.{empties};
ghost use Rattle.othello.specs.Limits.{aim_limit, empties_limit};

use othello_rules::{Diagram, Side};

/// A position of an ending: the diagram, the attacker and the margin aimed at.
/// No square has two discs, and at most 14 squares are empty.
#[derive(Clone, Copy)]
pub struct Position {
    pub(crate) diagram: Diagram,
    pub(crate) attacker: Side,
    pub(crate) aim: u8,
    ghost apart: { bit_and diagram.x diagram.o ≡ 0 },
    ghost board: { (diagram.x < 2 ^ 64) × (diagram.o < 2 ^ 64) },
    ghost within: { aim ≤ aim_limit },
    ghost few: { empties diagram ≤ empties_limit },
}
