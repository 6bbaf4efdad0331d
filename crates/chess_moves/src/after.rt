ghost use Rattle.std.specs.Prelude.{◌≡◌};
ghost use Rattle.chess_attacks.specs.Lists.{numbered};
ghost use Rattle.chess_moves.specs.After.{moved, less_passed, after, played};
ghost use Rattle.chess_moves.specs.Leaves.{Leaves, MayGo};

use crate::diagram::Diagram;
use crate::pawns::{becoming, forward, passes, takes_passing};
use crate::step::Move;
use board::Square;
use chess_attacks::{Board, Man, Side, beside, man_on};

// A man and its move are plain parameters here and in `pawns`: other functions take one of the two alone, and a struct of both would be no
// plainer.

// The board after the man has gone, and become what it becomes.
fn moved(board: &Board, man: Man, step: Move) -> Board
    ensures { result ≡ moved board.now man step.from.number step.to.number step.promotion }
{
    let mut next = *board;
    next[step.from.number() as usize] = None;
    next[step.to.number() as usize] = Some(becoming(man, step.promotion));
    next
}

// Takes the pawn that has just passed the square off the board.
fn take_passed(mut board: Board, side: Side, to: Square) -> Board
    ensures { result ≡ less_passed board side to.number }
{
    if let Some(square) = beside(to, forward(side.other())) {
        board[square.number() as usize] = None;
    }
    board
}

// The board after the man has made the move.
#[tactic(auto, unfolding(crate::specs::After::after))]
pub(crate) fn after(diagram: &Diagram, man: Man, step: Move) -> Board
    ensures { result ≡ after diagram.now.board (numbered diagram.now.passing) man step.from.number step.to.number step.promotion }
{
    let next = moved(&diagram.board, man, step);
    if takes_passing(diagram.passing, man, step) {
        take_passed(next, man.side, step.to)
    } else {
        next
    }
}

/// The diagram after a move; from an empty square nothing moves.
pub fn play(diagram: &Diagram, step: Move) -> Diagram
    ensures exact { result ≡ played diagram.now step }
    ensures leaves { MayGo diagram.now step → Leaves diagram.now step result }
{
    let Some(man) = man_on(&diagram.board, step.from) else {
        return *diagram;
    };
    Diagram {
        board: after(diagram, man, step),
        mover: diagram.mover.other(),
        passing: passes(man, step),
    }
}
