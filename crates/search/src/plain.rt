ghost use Rattle.std.specs.Prelude.{◌≡◌, ℕ, ◌+◌, ◌<◌, ◌≤◌, List, ◌∷◌, length, MatchOption};
ghost use Rattle.game.specs.Limits.{depth_limit};
ghost use Rattle.game.specs.Tree.{Tree, rank, next};
ghost use Rattle.stack.specs.Contents.{contents, room};
ghost use Rattle.search.specs.declared.entry.Entry.{Entry as Kept};
ghost use Rattle.search.specs.declared.entry.Turn.TheVariants.{Look, Try, Back};
ghost use Rattle.search_laws.specs.Trial.{need};
ghost use Rattle.search.specs.Plain.{Searched};
ghost use Rattle.search.specs.Search.{Goes, Holds};

use crate::entry::{Entry, Found, Turn};
use crate::path::{play_move, push_entry, take_move_back};
use crate::unwind::take_all_back;
use game::{Game, State};
use stack::Stack;
use table::Side;

// What stands in a free place of the stack. No `Default`: a side has none, and the constant says the same in one place.
const NO_ENTRY: Entry = Entry {
    next: 0,
    count: 0,
    side: Side::Attacker,
};

// Looks at the current position: its value where it has ended, else its entry, which is counted, or nothing where the share is spent.
fn look<G: Game>(game: &G, entries: &mut u32, share: u32) -> Option<Turn>
    ensures goes { (es : List Kept) → MatchOption result
        ((t₀ : Tree) (ts₀ : List Tree) → Holds Look es (G.current game.now) (G.earlier game.now) entries.old t₀ ts₀ → share < need t₀)
        (λ turn. Goes Look es (G.current game.now) (G.earlier game.now) entries.old
        turn es (G.current game.now) (G.earlier game.now) entries.new) }
    ensures within { entries.old ≤ share → entries.new ≤ share }
{
    let side = match game.state() {
        State::Won => return Some(Turn::Back(Side::Attacker)),
        State::NotWon => return Some(Turn::Back(Side::Defender)),
        State::Attacker => Side::Attacker,
        State::Defender => Side::Defender,
    };
    if *entries >= share {
        return None;
    }
    *entries += 1;
    Some(Turn::Try(Entry {
        next: 0,
        count: game.count(),
        side,
    }))
}

// Tries the next move of the current position's entry, or goes back where none is left. The stack's room is asked here, since a stack is
// over a lent slice of any length.
fn try_next<G: Game>(game: &mut G, stack: &mut Stack<'_, Entry>, entry: Entry) -> Turn
    requires room { room stack.old ≡ 32 }
    requires count { entry.count ≡ length (next (G.current game.old)) }
    requires places { rank (G.current game.old) + length (contents stack.old) ≤ depth_limit }
    ensures goes { (n : ℕ) → Goes (Try entry) (contents stack.old) (G.current game.old) (G.earlier game.old) n
        result (contents stack.new) (G.current game.new) (G.earlier game.new) n }
    ensures room { room stack.new ≡ 32 }
{
    if entry.next >= entry.count {
        return Turn::Back(entry.side.other());
    }
    let waiting = Entry {
        next: entry.next + 1,
        ..entry
    };
    push_entry(stack, waiting);
    play_move(game, entry.next);
    Turn::Look
}

// Goes back to an entry's position with the side that has the current one.
fn come_back<G: Game>(game: &mut G, entry: Entry, winner: Side) -> Turn
    requires { 0 < length (G.earlier game.old) }
    ensures { (es : List Kept) (n : ℕ) → Goes (Back winner) (entry ∷ es) (G.current game.old) (G.earlier game.old) n
        result es (G.current game.new) (G.earlier game.new) n }
{
    take_move_back(game);
    if winner == entry.side {
        return Turn::Back(winner);
    }
    Turn::Try(entry)
}

// Searches the current position by minimax, with so many entries at most.
pub(crate) fn plain_search<G: Game>(game: &mut G, share: u32) -> Option<Found>
    ensures at { G.current game.new ≡ G.current game.old }
    ensures path { G.earlier game.new ≡ G.earlier game.old }
    ensures found { Searched (G.current game.old) share result }
{
    let mut room = [NO_ENTRY; 32];
    let mut stack = Stack::new(&mut room);
    let mut entries = 0;
    let mut turn = Turn::Look;
    // A switch on what comes next, and no recursion: the positions before the current one lie on the stack over a lent slice, by the
    // project's rules.
    loop {
        turn = match turn {
            Turn::Look => match look(game, &mut entries, share) {
                Some(next) => next,
                None => {
                    take_all_back(game, &mut stack);
                    return None;
                }
            },
            Turn::Try(entry) => try_next(game, &mut stack, entry),
            Turn::Back(winner) => match stack.pop() {
                Some(entry) => come_back(game, entry, winner),
                None => {
                    return Some(Found {
                        won: winner == Side::Attacker,
                        entries,
                    });
                }
            },
        };
    }
}
