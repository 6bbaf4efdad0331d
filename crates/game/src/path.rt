ghost use Rattle.std.specs.Prelude.{◌≡◌, ◌≤◌, length};
ghost use Rattle.game.specs.Limits.{depth_limit};
ghost use Rattle.game.specs.Places.{held};

use arrayvec::ArrayVec;

// how many moves can be played one after the other in a game at most
const DEPTH_LIMIT: usize = 32;

/// A path of at most 33 positions: the current one, and the earlier ones, the latest last.
// The vector fills unused places with a default, which an `Option` has for every type. No place that is used is empty.
#[derive(Drop)]
pub struct Path<P> {
    pub(crate) current: P,
    pub(crate) earlier: ArrayVec<Option<P>, DEPTH_LIMIT>,
    ghost none_empty: { length (held earlier.items) ≡ length earlier.items },
    ghost room: { length earlier.items ≤ depth_limit },
}
