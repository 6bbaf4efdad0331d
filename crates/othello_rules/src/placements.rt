ghost use Rattle.std.specs.Prelude.{◌≡◌, ◌≤◌, length};

use board::Square;

/// Squares in rising order.
// The first `count` of an array: a list can be copied, and a vector of fixed capacity can't.
#[derive(Clone, Copy)]
pub struct Placements {
    pub(crate) squares: [Square; 64],
    pub(crate) count: usize,
    ghost within: { count ≤ length squares },
    ghost whole: { length squares ≡ 64 },
}
