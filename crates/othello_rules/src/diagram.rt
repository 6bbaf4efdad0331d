use crate::side::Side;

/// The discs of each side, bit s for the square s, and the side to move.
#[derive(Clone, Copy, Debug, Eq, PartialEq)]
pub struct Diagram {
    pub x: u64,
    pub o: u64,
    pub mover: Side,
}
