ghost use Rattle.std.specs.Prelude.{◌≡◌, Decides};
ghost use Rattle.chess_attacks.specs.Commands.{Attacked, Checked};
ghost use Rattle.chess_attacks.specs.Lists.{attacked, king_hit, checked};

use crate::commands::man_on;
use crate::look::{leap_attack, line_attack};
use crate::men::{Board, Kind, Side, holds_man};
use board::Square;

/// Whether a man of the side attacks the square.
// Not inlined: inlined, a trial takes longer.
#[inline(never)]
pub fn attacked(board: &Board, square: Square, by: Side) -> bool
    ensures exact { result ≡ attacked board.now square.number by }
    ensures meaning { Decides result (Attacked board.now square.number by) }
{
    line_attack(board, square, by) || leap_attack(board, square, by)
}

// Whether a king of the side stands on the square and is attacked.
fn king_hit(board: &Board, square: Square, side: Side) -> bool
    ensures { result ≡ king_hit board.now side square.number }
{
    holds_man(man_on(board, square), side, Kind::King) && attacked(board, square, side.other())
}

/// Whether a king of the side is attacked.
pub fn in_check(board: &Board, side: Side) -> bool
    ensures exact { result ≡ checked board.now side }
    ensures meaning { Decides result (Checked board.now side) }
{
    Square::all().any(|square| king_hit(board, square, side))
}
