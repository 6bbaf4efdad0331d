ghost use Rattle.std.specs.Prelude.{◌≡◌, true, false, MatchOption};
ghost use Rattle.othello_rules.specs.Diagrams.{placeable, placed, passed};
ghost use Rattle.othello.specs.Endings.{reached};

use crate::Position;
use board::Square;

// What stays is copied by name: a struct with a ghost field takes no `..`.
impl Position {
    /// The position after a disc of the mover was placed on the square, or none where that is not legal.
    pub(crate) fn place(&self, square: Square) -> Option<Position>
        ensures { MatchOption result
            (placeable self.now.diagram square.number ≡ false)
            (λ q. (placeable self.now.diagram square.number ≡ true)
            × (q.diagram ≡ placed self.now.diagram square.number)
            × (q.attacker ≡ self.now.attacker)
            × (q.aim ≡ self.now.aim)) }
    {
        let diagram = self.diagram.place(square)?;
        Some(Position {
            diagram,
            attacker: self.attacker,
            aim: self.aim,
        })
    }

    /// The position after a pass.
    #[tactic(auto, using(crate::proofs::Passed::passed_apart, crate::proofs::Passed::passed_board, crate::proofs::Passed::passed_few))]
    pub(crate) fn pass(&self) -> Position
        ensures diagram { result.diagram ≡ passed self.now.diagram }
        ensures attacker { result.attacker ≡ self.now.attacker }
        ensures aim { result.aim ≡ self.now.aim }
    {
        Position {
            diagram: self.diagram.passed(),
            attacker: self.attacker,
            aim: self.aim,
        }
    }

    /// Whether the attacker's discs are at least as many more than the other side's as the aim says.
    pub(crate) fn reached(&self) -> bool
        ensures { result ≡ reached self.now.attacker self.now.aim self.now.diagram }
    {
        let own = self.diagram.disc_count(self.attacker);
        let other = self.diagram.disc_count(self.attacker.opponent());
        other + self.aim as u32 <= own
    }
}
