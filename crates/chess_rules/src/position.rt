ghost use Rattle.std.specs.Prelude.{◌≡◌, true};
ghost use Rattle.chess_rules.specs.Lawful.{lawful};

use chess_moves::Diagram;

/// A chess position: a diagram that keeps the rules.
#[derive(Clone, Copy)]
pub struct Position {
    pub diagram: Diagram,
    ghost fair: { lawful diagram ≡ true },
}
