ghost use Rattle.std.specs.Prelude.{◌≡◌, ◌<◌, ◌∷◌, length, slice_index_or};
ghost use Rattle.game.specs.Tree.{nowhere, next};
ghost use Rattle.stack.specs.Contents.{contents, room};

use game::Game;
use stack::Stack;
use std::fmt::Debug;

// A move is played, a move is taken back and an entry is pushed here where that cannot be declined: each contract asks for what makes it so.

// Plays the move of number i, which there is.
pub(crate) fn play_move<G: Game>(game: &mut G, i: usize)
    requires { i < length (next (G.current game.old)) }
    ensures at { G.current game.new ≡ slice_index_or (next (G.current game.old)) i nowhere }
    ensures path { G.earlier game.new ≡ G.current game.old ∷ G.earlier game.old }
{
    game.play(i).unwrap();
}

// Takes the last move back, which there is.
pub(crate) fn take_move_back<G: Game>(game: &mut G)
    requires { 0 < length (G.earlier game.old) }
    ensures { G.earlier game.old ≡ G.current game.new ∷ G.earlier game.new }
{
    game.take_back().unwrap();
}

// Adds an entry on top of a stack that has room for it.
pub(crate) fn push_entry<E: Copy + Drop + Debug>(stack: &mut Stack<'_, E>, entry: E)
    requires { length (contents stack.old) < room stack.old }
    ensures pushed { contents stack.new ≡ entry ∷ contents stack.old }
    ensures room { room stack.new ≡ room stack.old }
{
    stack.push(entry).unwrap();
}
