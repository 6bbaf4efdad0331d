ghost use Rattle.std.specs.Prelude.{◌≡◌, ◌≤◌, Decides, take};
ghost use Rattle.board.specs.Masks.{bit, mask};
ghost use Rattle.chess_moves.specs.Count.{men, kings};
ghost use Rattle.chess_moves.specs.Legal.{Legal, Lists};
ghost use Rattle.chess_moves.specs.Moves.{ahead_of, goes, one, tries, moves_to, reach_of, steps_of, moves_of, legal_moves, any_move, passing_of, listed, Adds};

use crate::after::after;
use crate::diagram::Diagram;
use crate::list::MoveList;
use crate::pawns::{forward, is_passing, promotes, stride};
use crate::step::{Move, Promotion};
use arrayvec::ArrayVec;
use board::Square;
use chess_attacks::{Kind, Man, commanded, holds, in_check, line, man_on};

// A man that is about to move, on the square that it leaves, in its diagram.
#[derive(Clone, Copy)]
struct Departure<'a> {
    diagram: &'a Diagram,
    man: Man,
    from: Square,
}

impl<'a> Departure<'a> {
    // The squares ahead of a pawn, as far as it may step, up to and with the first that holds a man.
    #[tactic(auto, unfolding(board::specs::Masks::mask))]
    fn ahead(&self) -> u64
        ensures { result ≡ mask (ahead_of self.now.diagram.now.board self.now.man self.now.from.number) }
    {
        let Departure { diagram, man, from } = *self;
        if man.kind == Kind::Pawn {
            let most = stride(man.side, from);
            line(&diagram.board, from, forward(man.side), most)
        } else {
            0
        }
    }

    // Whether the man, which commands `reach` and has `steps` ahead, goes to the square.
    fn goes(&self, reach: u64, steps: u64, to: Square) -> bool
        ensures { let d = self.now.diagram.now in result ≡ goes d.board (passing_of d) self.now.man (bit reach) (bit steps) to.number }
    {
        let Departure { diagram, man, .. } = *self;
        let there = man_on(&diagram.board, to);
        if man.kind == Kind::Pawn {
            to.within(steps) && there.is_none()
                || to.within(reach)
                    && (holds(there, man.side.other()) || is_passing(diagram.passing, to))
        } else {
            to.within(reach) && !holds(there, man.side)
        }
    }

    // Adds the move, unless it leaves the king of its side attacked.
    fn list_one<const N: usize>(
        &self,
        to: Square,
        promotion: Option<Promotion>,
        list: &mut ArrayVec<Move, N>,
    )
        ensures { let d = self.now.diagram.now in Adds N list.old.items
            (one d.board (passing_of d) self.now.man self.now.from.number to.number promotion) list.new.items }
    {
        let step = Move {
            from: self.from,
            to,
            promotion,
        };
        let next = after(self.diagram, self.man, step);
        if !in_check(&next, self.man.side) && !list.is_full() {
            list.push(step);
        }
    }

    // Adds the moves to the square.
    fn list_tries<const N: usize>(&self, to: Square, list: &mut ArrayVec<Move, N>)
        ensures { let d = self.now.diagram.now in Adds N list.old.items
            (tries d.board (passing_of d) self.now.man self.now.from.number to.number) list.new.items }
    {
        if promotes(self.man, to) {
            for promotion in Promotion::ALL {
                self.list_one(to, Some(promotion), list);
            }
        } else {
            self.list_one(to, None, list);
        }
    }

    // Adds the moves of the man, until the list is full.
    fn list_all<const N: usize>(&self, list: &mut ArrayVec<Move, N>)
        ensures { let d = self.now.diagram.now in Adds N list.old.items
            (moves_to d.board (passing_of d) self.now.man
            (reach_of d.board self.now.man self.now.from.number) (steps_of d.board self.now.man self.now.from.number)
            self.now.from.number 64) list.new.items }
    {
        let reach = commanded(&self.diagram.board, self.man, self.from);
        let steps = self.ahead();
        for to in Square::all() {
            if list.is_full() {
                return;
            }
            if self.goes(reach, steps, to) {
                self.list_tries(to, list);
            }
        }
    }
}

// Adds the moves from a square: those of the man of the side to move that stands there, if one does.
fn list_from<const N: usize>(diagram: &Diagram, from: Square, list: &mut ArrayVec<Move, N>)
    ensures { let d = diagram.now in Adds N list.old.items
        (moves_of d.board d.mover (passing_of d) from.number) list.new.items }
{
    if let Some(man) = man_on(&diagram.board, from) {
        if man.side == diagram.mover {
            Departure { diagram, man, from }.list_all(list);
        }
    }
}

// The first legal moves, at most `N` of them.
fn first_moves<const N: usize>(diagram: &Diagram) -> ArrayVec<Move, N>
    ensures { result.items ≡ take N (legal_moves diagram.now) }
{
    let mut list = ArrayVec::new();
    for from in Square::all() {
        if list.is_full() {
            return list;
        }
        list_from(diagram, from, &mut list);
    }
    list
}

/// The legal moves, by from-square, then to-square, then queen, rook, bishop and knight: the first 415 of them, which are all
/// where the side to move has a king and at most sixteen men.
pub fn moves(diagram: &Diagram) -> MoveList
    ensures cut { listed result ≡ take 415 (legal_moves diagram.now) }
    ensures all { men diagram.now.board diagram.now.mover ≤ 16
        → 1 ≤ kings diagram.now.board diagram.now.mover → listed result ≡ legal_moves diagram.now }
    ensures legal { Lists diagram.now (legal_moves diagram.now) }
{
    MoveList::new(&first_moves(diagram))
}

/// Whether there is a legal move.
pub fn has_move(diagram: &Diagram) -> bool
    ensures exact { result ≡ any_move (legal_moves diagram.now) }
    ensures meaning { Decides result ((v : Move) × Legal diagram.now v) }
{
    !first_moves::<1>(diagram).is_empty()
}
