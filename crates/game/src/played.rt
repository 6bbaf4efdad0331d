ghost use Rattle.std.specs.Prelude.{◌≡◌, true};
ghost use Rattle.game.specs.Tree.{rank};
ghost use Rattle.game.specs.Paths.{roomy, ranks};

use crate::{Path, Position};

/// A game that is played: a path of positions, with room for every move that can still come.
#[derive(Drop)]
pub struct Played<P: Position> {
    pub(crate) path: Path<P>,
    ghost room: { roomy (ranks (λ p. rank (P.tree p)) path) ≡ true },
}
