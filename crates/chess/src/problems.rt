ghost use Rattle.std.specs.Prelude.{◌≡◌, ℕ, ◌-◌, Some, MatchResult};
ghost use Rattle.std.specs.List.{slice_get};
ghost use Rattle.game.specs.Tree.{position, refused, state, code};
ghost use Rattle.game.specs.Declines.{number};
ghost use Rattle.chess_attacks.specs.Men.{same_side};
ghost use Rattle.chess_moves.specs.After.{played};
ghost use Rattle.chess.specs.Trees.{standing, is_in_check};
ghost use Rattle.chess.specs.Choices.{choices_of};
ghost use Rattle.chess.specs.Positions.{tree_of, fresh_tree};
ghost use Rattle.chess.specs.Setting.{reading_of, Sets, Refuses};

use crate::coding;
use crate::problem::Problem;
use chess_attacks::{Kind, Man, Side};
use chess_moves::{Diagram, Move};
use chess_rules::Position;
use game::{Decline, SetDecline, State};

const LARGEST_AIM: u32 = 7;

impl Problem {
    /// `4k3/8/8/8/8/8/8/4K3 w - -`, with one ply left.
    pub(crate) fn fresh() -> Problem
        ensures at { tree_of result ≡ fresh_tree }
        ensures plies { result.plies ≡ 1 }
    {
        let mut board = [None; 64];
        board[4] = Some(Man {
            side: Side::White,
            kind: Kind::King,
        });
        board[60] = Some(Man {
            side: Side::Black,
            kind: Kind::King,
        });
        let diagram = Diagram {
            board,
            mover: Side::White,
            passing: None,
        };
        Problem {
            position: Position { diagram },
            attacker: Side::White,
            plies: 1,
        }
    }

    /// The problem of a text: the side to move is to mate in `aim` moves, 1 to 7.
    pub fn read(text: &[u8], aim: u32) -> Result<Problem, SetDecline>
        ensures exact { MatchResult result
            (λ p. reading_of text.now aim ≡ position (tree_of p))
            (λ e. reading_of text.now aim ≡ refused (number e.cause) e.place) }
        ensures meaning { MatchResult result
            (λ p. Sets text.now aim p)
            (λ e. Refuses text.now aim (number e.cause) e.place) }
    {
        if aim < 1 || aim > LARGEST_AIM {
            return Err(Decline::Aim.into());
        }
        let diagram = chess_text::read(text).map_err(SetDecline::at)?;
        let position = Position::new(diagram).ok_or(Decline::Unlawful)?;
        Ok(Problem {
            position,
            attacker: position.diagram.mover,
            plies: (2 * aim - 1) as u8,
        })
    }

    /// The state, from whether the side to move has no legal move.
    pub(crate) fn standing(&self, stuck: bool) -> State
        ensures { result ≡ standing (same_side self.now.position.diagram.mover self.now.attacker) stuck
            (is_in_check self.now.position.diagram) self.now.plies }
    {
        let board = &self.position.diagram.board;
        let mover = self.position.diagram.mover;
        let ours = mover == self.attacker;
        if stuck {
            if !ours && chess_attacks::in_check(board, mover) {
                State::Won
            } else {
                State::NotWon
            }
        } else if self.plies == 0 {
            State::NotWon
        } else if ours {
            State::Attacker
        } else {
            State::Defender
        }
    }

    pub(crate) fn state(&self) -> State
        ensures { result ≡ state (tree_of self.now) }
    {
        let able = chess_moves::has_move(&self.position.diagram);
        self.standing(!able)
    }

    #[tactic(auto, using(crate::specs::Grown::code_is))]
    pub(crate) fn code(&self) -> [u64; 5]
        ensures { result ≡ code (tree_of self.now) }
    {
        coding::code(self.attacker, self.plies, &self.position.diagram)
    }

    /// The position after one of its moves.
    pub(crate) fn moved(&self, step: Move) -> Problem
        requires { (i : ℕ) × (Some step ≡ slice_get (choices_of self.now) i) }
        ensures diagram { result.position.diagram ≡ played self.now.position.diagram step }
        ensures attacker { result.attacker ≡ self.now.attacker }
        ensures plies { result.plies ≡ self.now.plies - 1 }
    {
        let diagram = chess_moves::play(&self.position.diagram, step);
        // copied by name: a struct with a ghost field takes no `..`
        Problem {
            position: Position { diagram },
            attacker: self.attacker,
            plies: self.plies - 1,
        }
    }
}
