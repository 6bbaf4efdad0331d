ghost use Rattle.std.specs.Prelude.{◌≡◌, ◌<◌, ◌≤◌, List, length, map, Some, MatchOption, MatchResult, slice_index_or};
ghost use Rattle.std.specs.List.{slice_get};
ghost use Rattle.game.specs.Tree.{position, refused, nowhere, state, rank, code, next, words};
ghost use Rattle.game.specs.Declines.{number};
ghost use Rattle.othello.specs.Fresh.{fresh_text};
ghost use Rattle.othello.specs.Limits.{empties_limit, rank_limit};
ghost use Rattle.othello.specs.Moves.{Move, text_of, Becomes, HasMoves};
ghost use Rattle.othello.specs.Positions.{IsEnding, start, tree_of, diagram_of, attacker_of, aim_of};
ghost use Rattle.othello.specs.Setting.{reading, Taken, Declined};
ghost use Rattle.othello.specs.Standing.{HasState, HasRank};
ghost use Rattle.othello.specs.Lawful;
ghost use Rattle.othello.specs.Laws.{ending};

use crate::helpers::{due, side_number, square_text, to_move};
use crate::{Position, set_up};
use game::{SetDecline, State};
use othello_rules::{Diagram, Side, Turn};

/// A fresh game's position.
impl Default for Position {
    ghost is_default = { λ p. tree_of p ≡ start };

    fn default() -> Self {
        <Position as game::Position>::fresh()
    }
}

impl game::Position for Position {
    ghost tree = { tree_of };

    ghost start = { start };

    ghost positions = { IsEnding };

    ghost depth = { rank_limit };

    ghost width = { empties_limit };

    ghost reading = { reading };

    ghost lawful = { Lawful.lawful };

    ghost within = { λ p. ending p.attacker p.aim p.diagram p.within (record { apart = p.apart; board = p.board; few = p.few }) };

    // Every square has an X, X is to move and attacks, and the aim is 0.
    fn fresh() -> Self
        ensures exact { tree_of result ≡ start }
        ensures meaning { Taken fresh_text 0 result }
    {
        Position {
            diagram: Diagram {
                x: u64::MAX,
                o: 0,
                mover: Side::X,
            },
            attacker: Side::X,
            aim: 0,
        }
    }

    fn read(text: &[u8], aim: u32) -> Result<Self, SetDecline>
        ensures exact { MatchResult result
            (λ p. reading text.now aim ≡ position (tree_of p))
            (λ e. reading text.now aim ≡ refused (number e.cause) e.place) }
        ensures meaning { MatchResult result
            (λ p. Taken text.now aim p)
            (λ e. Declined text.now aim (number e.cause) e.place) }
    {
        set_up(text, aim)
    }

    // Who is to move, or at the end who has won.
    fn state(&self) -> State
        ensures exact { result ≡ state (tree_of self.now) }
        ensures meaning { HasState (attacker_of self.now) (aim_of self.now) (diagram_of self.now) result }
    {
        match self.diagram.turn() {
            Turn::Place | Turn::Pass => to_move(self.attacker, self.diagram.mover),
            Turn::Ended => {
                if self.reached() {
                    State::Won
                } else {
                    State::NotWon
                }
            }
        }
    }

    fn count(&self) -> usize
        ensures exact { result ≡ length (next (tree_of self.now)) }
        ensures meaning { (vs : List Move) × HasMoves (diagram_of self.now) vs × (result ≡ length vs) }
    {
        match self.diagram.turn() {
            Turn::Place => self.diagram.placements().count(),
            Turn::Pass => 1,
            Turn::Ended => 0,
        }
    }

    // A placement and a pass for each empty square at most, and a pass that is due.
    fn rank(&self) -> usize
        ensures exact { result ≡ rank (tree_of self.now) }
        ensures meaning { HasRank (diagram_of self.now) result }
    {
        2 * self.diagram.empties() as usize + due(self.diagram.turn())
    }

    // The discs of X and of O, the mover, the attacker and the aim.
    fn code(&self) -> [u64; 5] {
        [
            self.diagram.x,
            self.diagram.o,
            side_number(self.diagram.mover),
            side_number(self.attacker),
            self.aim as u64,
        ]
    }

    fn text(&self, i: usize) -> Option<[u8; 5]>
        ensures exact { result ≡ slice_get (words (tree_of self.now)) i }
        ensures meaning { (vs : List Move) × HasMoves (diagram_of self.now) vs × (result ≡ slice_get (map text_of vs) i) }
    {
        match self.diagram.turn() {
            Turn::Place => {
                let square = self.diagram.placements().get(i)?;
                Some(square_text(square))
            }
            Turn::Pass => { if i == 0 { Some(*b"pass ") } else { None } }
            Turn::Ended => None,
        }
    }

    fn after(&self, i: usize) -> Option<Self>
        ensures exact { MatchOption result
            (length (next (tree_of self.now)) ≤ i)
            (λ p. (i < length (next (tree_of self.now)))
            × (tree_of p ≡ slice_index_or (next (tree_of self.now)) i nowhere)) }
        ensures meaning { (vs : List Move) × HasMoves (diagram_of self.now) vs × MatchOption result
            (length vs ≤ i)
            (λ p. (v : Move) × (Some v ≡ slice_get vs i) × Becomes (diagram_of self.now) v (diagram_of p)
            × (attacker_of p ≡ attacker_of self.now) × (aim_of p ≡ aim_of self.now)) }
    {
        match self.diagram.turn() {
            Turn::Place => {
                let square = self.diagram.placements().get(i)?;
                self.place(square)
            }
            Turn::Pass => { if i == 0 { Some(self.pass()) } else { None } }
            Turn::Ended => None,
        }
    }
}
