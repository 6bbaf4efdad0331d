ghost use Rattle.std.specs.Prelude.{◌≤◌};

/// A pile of at most four stones, and whether the attacker is to move.
#[derive(Clone, Copy, PartialEq, Eq, Debug)]
pub struct Pile {
    pub(crate) left: u8,
    // a bool: game has no enum of the two sides alone, and one for this small game would be no plainer
    pub(crate) attackers: bool,
    ghost few: { left ≤ 4 },
}
