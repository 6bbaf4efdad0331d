ghost use Rattle.std.specs.Prelude.{◌≡◌, ◌<◌, ◌≤◌};
ghost use Rattle.chess.specs.Code.{kind_number, side_number, digit, word, passing_number, rest, code, CodesTell};

use board::Square;
use chess_attacks::{Board, Kind, Man, Side};
use chess_moves::Diagram;

/// The number of a kind in a code, from 1 on.
fn kind_number(kind: Kind) -> u64
    ensures value { result ≡ kind_number kind }
    ensures small { result < 8 }
{
    kind as u64 + 1
}

/// The number of a side in a code.
fn side_number(side: Side) -> u64
    ensures value { result ≡ side_number side }
    ensures small { result < 2 }
{
    side as u64
}

/// What stands on a square as a digit in base 16.
fn digit(man: Option<Man>) -> u64
    ensures value { result ≡ digit man }
    ensures small { result < 16 }
{
    man.map_or(0, |man| kind_number(man.kind) + 8 * side_number(man.side))
}

/// Sixteen squares from `start` on as one word.
fn word(board: &Board, start: u8) -> u64
    requires { start ≤ 48 }
    ensures { result ≡ word board.now start 16 }
{
    let start = usize::from(start);
    let mut word = 0;
    for man in &board[start..start + 16] {
        word = word * 16 + digit(*man);
    }
    word
}

/// The number of the en passant square in a code: 0 for none.
fn passing_number(passing: Option<Square>) -> u64
    ensures value { result ≡ passing_number passing }
    ensures small { result < 65 }
{
    passing.map_or(0, |square| square.number() as u64 + 1)
}

/// What the code has besides the board: the plies left, the en passant square, the side to move and the attacker.
fn rest(attacker: Side, plies: u8, diagram: &Diagram) -> u64
    ensures { result ≡ rest attacker plies diagram.now }
{
    let passing = plies as u64 * 128 + passing_number(diagram.passing);
    (passing * 2 + side_number(diagram.mover)) * 2 + side_number(attacker)
}

/// The code of a diagram with the attacker and the plies left.
pub(crate) fn code(attacker: Side, plies: u8, diagram: &Diagram) -> [u64; 5]
    ensures { result ≡ code attacker plies diagram.now }
{
    // the four words of the board, and one of another kind: mapped over their first squares they would be no plainer
    [
        word(&diagram.board, 0),
        word(&diagram.board, 16),
        word(&diagram.board, 32),
        word(&diagram.board, 48),
        rest(attacker, plies, diagram),
    ]
}

/// Equal codes are codes of equal diagrams with the same attacker and plies left.
pub fn codes_tell()
    ensures { CodesTell }
{}
