/// What the side to move may do.
#[derive(Clone, Copy, Debug, Eq, PartialEq)]
pub enum Turn {
    /// It places a disc.
    Place,
    /// It has no placement, and the other side has one.
    Pass,
    /// Neither side has a placement.
    Ended,
}
