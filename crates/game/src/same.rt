ghost use Rattle.std.specs.Prelude.{◌≡◌, Decides};
ghost use Rattle.game.specs.Rules.{CodesTell};

use crate::Game;

/// In every game, positions with equal codes are the same tree.
pub fn codes_tell<G: Game>()
    ensures { CodesTell G.positions }
{}

/// Whether two games stand at the same position, as their codes tell.
pub fn same_position<G: Game>(a: &G, b: &G) -> bool
    ensures { Decides result (G.current a.now ≡ G.current b.now) }
{
    a.code() == b.code()
}
