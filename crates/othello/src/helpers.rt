ghost use Rattle.std.specs.Prelude.{◌≡◌};
ghost use Rattle.othello.specs.Endings.{to_move, due, side_number, square_text};

use board::Square;
use game::State;
use othello_rules::{Side, Turn};

/// The side to move, as the attacker sees it.
pub(crate) fn to_move(attacker: Side, mover: Side) -> State
    ensures { result ≡ to_move attacker mover }
{
    if attacker == mover {
        State::Attacker
    } else {
        State::Defender
    }
}

/// The number of a side in a code.
pub(crate) fn side_number(side: Side) -> u64
    ensures { result ≡ side_number side }
{
    side as u64
}

/// The text of a placement: the square's name and three blanks.
pub(crate) fn square_text(square: Square) -> [u8; 5]
    ensures { result ≡ square_text square.number }
{
    let [file, row] = square.name();
    [file, row, b' ', b' ', b' ']
}

/// One move more than the empty squares allow, where the mover has to pass.
pub(crate) fn due(turn: Turn) -> usize
    ensures { result ≡ due turn }
{
    match turn {
        Turn::Place | Turn::Ended => 0,
        Turn::Pass => 1,
    }
}
