ghost use Rattle.std.specs.Prelude.{◌≡◌};
ghost use Rattle.chess_text.specs.Letters.{man_of, side_of, run_of, file_of};

use chess_attacks::{Kind, Man, Side};

// The man that a letter means. The letters are literals, here and below: the project's rules want them seen.
#[tactic(auto, unfolding(crate::specs::Letters::man_of))]
pub(crate) fn man(byte: u8) -> Option<Man>
    ensures { result ≡ man_of byte }
{
    let (side, kind) = match byte as char {
        'K' => (Side::White, Kind::King),
        'Q' => (Side::White, Kind::Queen),
        'R' => (Side::White, Kind::Rook),
        'B' => (Side::White, Kind::Bishop),
        'N' => (Side::White, Kind::Knight),
        'P' => (Side::White, Kind::Pawn),
        'k' => (Side::Black, Kind::King),
        'q' => (Side::Black, Kind::Queen),
        'r' => (Side::Black, Kind::Rook),
        'b' => (Side::Black, Kind::Bishop),
        'n' => (Side::Black, Kind::Knight),
        'p' => (Side::Black, Kind::Pawn),
        _ => return None,
    };
    Some(Man { side, kind })
}

// The side that a letter means.
#[tactic(auto, unfolding(crate::specs::Letters::side_of))]
pub(crate) fn side(byte: u8) -> Option<Side>
    ensures { result ≡ side_of byte }
{
    match byte as char {
        'w' => Some(Side::White),
        'b' => Some(Side::Black),
        _ => None,
    }
}

// The run of empty squares that a digit means.
#[tactic(auto, unfolding(crate::specs::Letters::run_of))]
pub(crate) fn run(byte: u8) -> Option<u8>
    ensures { result ≡ run_of byte }
{
    match byte as char {
        '1'..='8' => Some(byte - b'0'),
        _ => None,
    }
}

// The file that a letter means. Beside `run`, and not one function with it: with the range as a parameter the letters would not be seen.
#[tactic(auto, unfolding(crate::specs::Letters::file_of))]
pub(crate) fn file(byte: u8) -> Option<u8>
    ensures { result ≡ file_of byte }
{
    match byte as char {
        'a'..='h' => Some(byte - b'a'),
        _ => None,
    }
}
