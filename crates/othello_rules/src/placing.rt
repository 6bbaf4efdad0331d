ghost use Rattle.std.specs.Prelude.{◌≡◌, if◌then◌else◌, Some, None, Decides, MatchOption};
ghost use Rattle.board.specs.Masks.{mask};
ghost use Rattle.othello_rules.specs.Diagrams.{opponent, discs, disc_at, moved, turns, placeable, placed, passed};
ghost use Rattle.othello_rules.specs.Legal.{Legal, Leaves, Passes, LeavesOne};

use crate::roles::Roles;
use crate::{Diagram, Side};
use board::Square;

impl Side {
    /// The other side.
    pub fn opponent(self) -> Side
        ensures { result ≡ opponent self }
    {
        match self {
            Side::X => Side::O,
            Side::O => Side::X,
        }
    }
}

impl Roles {
    // The diagram after a move of the side that has the own discs.
    fn moved(self, side: Side) -> Diagram
        ensures { result ≡ moved side self.own self.other }
    {
        let Roles { own, other } = self;
        let (x, o) = match side {
            Side::X => (own, other),
            Side::O => (other, own),
        };
        Diagram {
            x,
            o,
            mover: side.opponent(),
        }
    }
}

impl Diagram {
    /// The discs of a side.
    pub fn discs(&self, side: Side) -> u64
        ensures { result ≡ discs side self.now }
    {
        match side {
            Side::X => self.x,
            Side::O => self.o,
        }
    }

    /// The side that has a disc on the square, if one has.
    pub fn disc(&self, square: Square) -> Option<Side>
        ensures { result ≡ disc_at self.now square.number }
    {
        if square.within(self.x) {
            Some(Side::X)
        } else if square.within(self.o) {
            Some(Side::O)
        } else {
            None
        }
    }

    /// The same discs, with the other side to move.
    pub fn passed(&self) -> Diagram
        ensures exact { result ≡ passed self.now }
        ensures meaning { Passes self.now result }
    {
        Diagram {
            mover: self.mover.opponent(),
            ..*self
        }
    }

    // The discs by role.
    fn roles(&self) -> Roles
        ensures own { result.own ≡ discs self.now.mover self.now }
        ensures other { result.other ≡ discs (opponent self.now.mover) self.now }
    {
        Roles {
            own: self.discs(self.mover),
            other: self.discs(self.mover.opponent()),
        }
    }

    // The discs that a disc of the mover on the square turns: none where the square is not empty.
    fn turned(&self, square: Square) -> u64
        ensures { result ≡ mask (turns self.now square.number) }
    {
        let roles = self.roles();
        if square.within(roles.own | roles.other) {
            return 0;
        }
        roles.flips(square)
    }

    /// Whether the mover may place a disc on the square.
    pub fn legal(&self, square: Square) -> bool
        ensures exact { result ≡ placeable self.now square.number }
        ensures meaning { Decides result (Legal self.now.mover self.now square.number) }
    {
        self.turned(square) != 0
    }

    /// The diagram after a disc of the mover was placed on the square, or none where that is not legal.
    pub fn place(&self, square: Square) -> Option<Diagram>
        ensures exact { result ≡ (if placeable self.now square.number then Some (placed self.now square.number) else None) }
        ensures meaning { MatchOption result
            (Legal self.now.mover self.now square.number → ⊥)
            (λ d. Legal self.now.mover self.now square.number × Leaves self.now square.number d) }
    {
        let turned = self.turned(square);
        if turned == 0 {
            return None;
        }
        let Roles { own, other } = self.roles();
        let after = Roles {
            own: own | turned | square.single(),
            other: other & !turned,
        };
        Some(after.moved(self.mover))
    }
}

/// What a placement leaves is one diagram.
pub fn placements_leave_one()
    ensures { LeavesOne }
{}
