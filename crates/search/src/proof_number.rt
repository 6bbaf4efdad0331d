ghost use Rattle.std.specs.Prelude.{◌≡◌, ℕ, suc, ◌+◌, ◌<◌, ◌≤◌, ◌⊎◌, List, ◌∷◌, length, Some, MatchOption, slice_set};
ghost use Rattle.game.specs.Tree.{next};
ghost use Rattle.stack.specs.Contents.{contents, room};
ghost use Rattle.search.specs.declared.frame.Frame.{Frame as Kept};
ghost use Rattle.search.specs.declared.frame.Step.TheVariants.{Enter, Work};
ghost use Rattle.search.specs.Steps.{free, Fits, Goes};
ghost use Rattle.search.specs.Finishes.{Tells};
ghost use Rattle.search_laws.specs.Run.{Outcome, Enters, tops};
ghost use Rattle.search_laws.specs.Trial.{decided};
ghost use Rattle.table.specs.Pairs.{won, not_won};

use crate::choice::{hand_down, has_reached, side_of};
use crate::frame::{Frame, Given, Step};
use crate::listing::list_pairs;
use crate::path::{play_move, push_entry, take_move_back};
use crate::records::Records;
use crate::unwind::take_all_back;
use game::Game;
use search_laws::Thresholds;
use stack::Stack;
use table::{Figures, Pair, Side, TOP, Table};

// What stands in a free place of the stack. No `Default`: a side has none, and the constant says the same in one place.
const NO_FRAME: Frame = Frame {
    base: 0,
    end: 0,
    thresholds: Thresholds {
        proof: 0,
        disproof: 0,
    },
    side: Side::Attacker,
    chosen: 0,
};

// The first record that no frame on the stack has.
fn first_free(stack: &Stack<'_, Frame>) -> usize
    ensures { result ≡ free (contents stack.now) }
{
    stack.top().map_or(0, |frame| frame.end)
}

// Enters the current position: lists its successors' pairs in the records from `base` on, and makes its frame.
fn enter<G: Game, T: Table>(
    game: &mut G,
    table: &T,
    records: &mut [Pair],
    base: usize,
    thresholds: Thresholds,
) -> Frame
    requires { base + length (next (G.current game.old)) ≤ length records.old }
    ensures { (es : List Kept) (n : ℕ) → base ≡ free es → Goes T.storing G.width
        (Enter thresholds) es (G.current game.old) (G.earlier game.old) records.old (T.standing table.now) (suc n)
        (Work result) es (G.current game.new) (G.earlier game.new) records.new (T.standing table.now) n }
{
    let end = base + game.count();
    list_pairs(game, table, &mut records[base..end]);
    Frame {
        base,
        end,
        thresholds,
        side: side_of(game.state()),
        chosen: 0,
    }
}

// Hands a pair to a frame that waited for it: goes back to the frame's position, and writes its record of the successor that it has taken.
fn hand_back<G: Game>(game: &mut G, records: &mut [Pair], frame: Frame, pair: Pair)
    requires played { 0 < length (G.earlier game.old) }
    requires inside { frame.base + frame.chosen < length records.old }
    ensures rewrites { records.new ≡ slice_set records.old (frame.base + frame.chosen) pair }
    ensures takes_back { G.earlier game.old ≡ G.current game.new ∷ G.earlier game.new }
{
    take_move_back(game);
    records[frame.base + frame.chosen] = pair;
}

// Looks at the current position's frame: with a threshold reached it stores its pair and hands it on, else it takes a successor. The
// stack's room is asked here, since a stack is over a lent slice of any length.
fn work<G: Game, T: Table>(
    game: &mut G,
    table: &mut T,
    stack: &mut Stack<'_, Frame>,
    records: &[Pair],
    frame: Frame,
) -> Step
    requires room { room stack.old ≡ 32 }
    requires fits { Fits G.width frame (G.current game.old) (contents stack.old) }
    requires inside { frame.end ≤ length records.now }
    ensures goes { (n : ℕ) → Goes T.storing G.width
        (Work frame) (contents stack.old) (G.current game.old) (G.earlier game.old) records.now (T.standing table.old) n
        result (contents stack.new) (G.current game.new) (G.earlier game.new) records.now (T.standing table.new) n }
    ensures room { room stack.new ≡ 32 }
{
    let base = frame.base;
    let end = frame.end;
    let figures = Figures::of(&records[base..end], frame.side);
    if has_reached(frame.thresholds, figures.pair) {
        table.store(&game.code(), figures.pair);
        return Step::Back(figures.pair);
    }
    let thresholds = hand_down(frame.side, frame.thresholds, figures.second, figures.rest);
    let waiting = Frame {
        chosen: figures.place,
        ..frame
    };
    push_entry(stack, waiting);
    play_move(game, figures.place);
    Step::Enter(thresholds)
}

// The value of a decided pair.
fn decided_value(pair: Pair) -> bool
    requires { (pair ≡ won) ⊎ (pair ≡ not_won) }
    ensures { decided pair ≡ Some result }
{
    pair == Pair::WON
}

// Runs on the current position with so many expansions: `None` where they are not enough. The run comes to what is told here, and by its
// rules it could come to nothing else.
pub(crate) fn run<G: Game, T: Table>(
    game: &mut G,
    table: &mut T,
    left: u32,
    records: &mut Records,
) -> Option<Given>
    ensures at { G.current game.new ≡ G.current game.old }
    ensures path { G.earlier game.new ≡ G.earlier game.old }
    ensures comes { (o : Outcome T.storing.Standing) × Enters T.storing (T.standing table.old) left (G.current game.old) tops o
        × Tells result (T.standing table.new) o }
    ensures only { (o : Outcome T.storing.Standing) → Enters T.storing (T.standing table.old) left (G.current game.old) tops o
        → Tells result (T.standing table.new) o }
    ensures within { MatchOption result (Unit {0}) (λ given. given.left ≤ left) }
{
    let mut room = [NO_FRAME; 32];
    let mut stack = Stack::new(&mut room);
    let mut rest = left;
    let mut step = Step::Enter(Thresholds {
        proof: TOP,
        disproof: TOP,
    });
    // A switch on what comes next, and no recursion: the frames that wait lie on the stack over a lent slice, by the project's rules.
    loop {
        step = match step {
            Step::Enter(thresholds) => {
                if rest == 0 {
                    take_all_back(game, &mut stack);
                    return None;
                }
                rest -= 1;
                Step::Work(enter(game, table, records, first_free(&stack), thresholds))
            }
            Step::Work(frame) => work(game, table, &mut stack, records, frame),
            Step::Back(pair) => match stack.pop() {
                Some(frame) => {
                    hand_back(game, records, frame, pair);
                    Step::Work(frame)
                }
                None => {
                    return Some(Given {
                        left: rest,
                        won: decided_value(pair),
                    });
                }
            },
        };
    }
}
