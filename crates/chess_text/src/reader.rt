use board::Square;
use chess_attacks::{Board, Side};

// What comes next in a diagram's text.
#[derive(Clone, Copy)]
pub(crate) enum Awaits {
    // The row, how many of its squares are to come, and whether a digit was last.
    Squares { row: u8, left: u8, digit: bool },
    Mover,
    GapToRights,
    Rights,
    GapToPassing,
    Passing,
    PassingRow { file: u8 },
    Blanks,
}

// What is read so far, and what comes next.
#[derive(Clone, Copy)]
pub(crate) struct Reader {
    pub(crate) awaits: Awaits,
    pub(crate) board: Board,
    pub(crate) mover: Side,
    pub(crate) passing: Option<Square>,
}
