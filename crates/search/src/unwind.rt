ghost use Rattle.std.specs.Prelude.{◌≡◌, ◌≤◌, List, [], length};
ghost use Rattle.game.specs.Tree.{Tree};
ghost use Rattle.stack.specs.Contents.{contents};
ghost use Rattle.search.specs.Backs.{back};

use crate::path::take_move_back;
use game::Game;
use stack::Stack;

// Takes back as many moves as there are entries on the stack.
pub(crate) fn take_all_back<G: Game, E>(game: &mut G, stack: &mut Stack<'_, E>)
    requires { length (contents stack.old) ≤ length (G.earlier game.old) }
    ensures path { ◌≡◌ {A = Tree × List Tree} (G.current game.new, G.earlier game.new)
        (back (length (contents stack.old)) (G.current game.old) (G.earlier game.old)) }
    ensures empty { contents stack.new ≡ [] }
{
    while stack.discard() {
        take_move_back(game);
    }
}
