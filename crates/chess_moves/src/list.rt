ghost use Rattle.std.specs.Prelude.{◌≡◌, ◌≤◌, length};

use crate::step::Move;

/// The most moves that a list holds.
pub const MOST: usize = 415;

/// Moves in order, at most `MOST` of them.
// The first `count` of an array: a list can be copied, and a vector of fixed capacity can't.
#[derive(Clone, Copy)]
pub struct MoveList {
    pub(crate) moves: [Move; MOST],
    pub(crate) count: usize,
    ghost within: { count ≤ length moves },
    ghost whole: { length moves ≡ 415 },
}
