ghost use Rattle.std.specs.Prelude.{◌≡◌, length, Decides};
ghost use Rattle.chess_attacks.specs.Lists.{numbered};
ghost use Rattle.chess_rules.specs.Lawful.{Lawful, side_fine, inner, pawns_inner, passed_row, passing_fine, rules_kept, lawful};

use board::Square;
use chess_attacks::{Board, Kind, Side, beside, holds, holds_man, in_check, man_on};
use chess_moves::{Diagram, forward};

// One king, and at most sixteen men.
fn is_side_fine(board: &Board, side: Side) -> bool
    ensures fine { result ≡ side_fine board.now side }
    ensures whole { length board.now ≡ 64 }
{
    let kings = board
        .iter()
        .filter(|man| holds_man(**man, side, Kind::King))
        .count();
    let men = board.iter().filter(|man| holds(**man, side)).count();
    kings == 1 && men <= 16
}

// The row, counted from 0, of the square that a pawn has just passed when the side is to move.
fn passed_row(mover: Side) -> u8
    ensures { result ≡ passed_row mover }
{
    match mover {
        Side::White => 5,
        Side::Black => 2,
    }
}

// A pawn of the side that is not to move has just passed the square, if there is one.
fn is_passing_fine(diagram: &Diagram) -> bool
    ensures { result ≡ passing_fine diagram.now.board diagram.now.mover (numbered diagram.now.passing) }
{
    let Some(square) = diagram.passing else {
        return true;
    };
    let board = &diagram.board;
    let mover = diagram.mover;
    let left = beside(square, forward(mover));
    let stands = beside(square, forward(mover.other()));
    square.row() == passed_row(mover)
        && man_on(board, square).is_none()
        && left.is_some_and(|left| man_on(board, left).is_none())
        && stands.is_some_and(|stands| holds_man(man_on(board, stands), mover.other(), Kind::Pawn))
}

// No pawn stands on the square if it is of the first or the last row.
fn is_inner(board: &Board, square: Square) -> bool
    ensures { result ≡ inner board.now square.number }
{
    let is_pawn = man_on(board, square).is_some_and(|man| man.kind == Kind::Pawn);
    !is_pawn || (0 < square.row() && square.row() < 7)
}

// No pawn stands on the first or the last row.
fn are_pawns_inner(board: &Board) -> bool
    ensures { result ≡ pawns_inner board.now 64 }
{
    Square::all().all(|square| is_inner(board, square))
}

#[tactic(auto, unfolding(crate::specs::Lawful::rules_kept))]
fn keeps_rules(diagram: &Diagram) -> bool
    ensures kept { result ≡ rules_kept diagram.now.board diagram.now.mover (numbered diagram.now.passing) }
    ensures whole { length diagram.now.board ≡ 64 }
{
    is_side_fine(&diagram.board, Side::White)
        && is_side_fine(&diagram.board, Side::Black)
        && are_pawns_inner(&diagram.board)
        && !in_check(&diagram.board, diagram.mover.other())
        && is_passing_fine(diagram)
}

/// Whether a diagram keeps the rules of a position.
pub fn is_lawful(diagram: &Diagram) -> bool
    ensures exact { result ≡ lawful diagram.now }
    ensures meaning { Decides result (Lawful diagram.now) }
{
    keeps_rules(diagram)
}
