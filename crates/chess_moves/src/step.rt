use board::Square;

/// What a pawn becomes on the last row.
#[derive(Clone, Copy, PartialEq, Eq, Debug)]
pub enum Promotion {
    Queen,
    Rook,
    Bishop,
    Knight,
}

impl Promotion {
    /// All of them, in the order in which moves are listed.
    pub(crate) const ALL: [Promotion; 4] = [
        Promotion::Queen,
        Promotion::Rook,
        Promotion::Bishop,
        Promotion::Knight,
    ];
}

/// A move: where a man goes from, where to, and what a pawn on the last row becomes.
///
/// The default, from a1 to a1, only fills a list behind its moves.
#[derive(Clone, Copy, PartialEq, Eq, Debug, Default)]
pub struct Move {
    pub from: Square,
    pub to: Square,
    pub promotion: Option<Promotion>,
}
