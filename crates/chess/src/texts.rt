ghost use Rattle.std.specs.Prelude.{◌≡◌, map};
ghost use Rattle.chess_moves.specs.Moves.{listed};
ghost use Rattle.chess.specs.Trees.{letter, text_of};
ghost use Rattle.chess.specs.Finding.{Finds};

use chess_moves::{Move, MoveList, Promotion};

/// The letter of what a pawn becomes, or a blank: a match and no `Display`, since a move's text is five bytes by its format.
fn letter(promotion: Option<Promotion>) -> u8
    ensures { result ≡ letter promotion }
{
    match promotion {
        None => b' ',
        Some(Promotion::Queen) => b'q',
        Some(Promotion::Rook) => b'r',
        Some(Promotion::Bishop) => b'b',
        Some(Promotion::Knight) => b'n',
    }
}

/// The squares of a move, and the letter of what a pawn becomes or a blank.
pub(crate) fn text_of(step: Move) -> [u8; 5]
    ensures { result ≡ text_of step }
{
    let [from_file, from_row] = step.from.name();
    let [to_file, to_row] = step.to.name();
    [from_file, from_row, to_file, to_row, letter(step.promotion)]
}

/// The number of the move with a text in a list.
pub(crate) fn find(list: &MoveList, text: &[u8; 5]) -> Option<usize>
    ensures { Finds (map text_of (listed list.now)) text.now result }
{
    list.as_slice()
        .iter()
        .position(|step| text_of(*step) == *text)
}
