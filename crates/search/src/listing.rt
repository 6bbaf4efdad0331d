ghost use Rattle.std.specs.Prelude.{◌≡◌, ◌<◌, if◌then◌else◌, Some, map, length, slice_index_or};
ghost use Rattle.game.specs.Tree.{nowhere, state, code, next, ended};
ghost use Rattle.search_laws.specs.Run.{listed};

use crate::path::{play_move, take_move_back};
use game::{Game, State};
use table::{Pair, Table};

// The game and the table are two parameters here and in the run: which of them is lent to be changed differs from function to function, and
// a struct of both would lend in one way.

// The pair that is known of the game's position: decided if it has ended, else the table's, if it shows one.
pub(crate) fn known_pair<G: Game, T: Table>(game: &G, table: &T) -> Option<Pair>
    ensures { result ≡ (if ended (state (G.current game.now)) then Some (listed (T.storing.shows (T.standing table.now)) (G.current game.now)) else T.storing.shows (T.standing table.now) (code (G.current game.now))) }
{
    match game.state() {
        State::Won => Some(Pair::WON),
        State::NotWon => Some(Pair::NOT_WON),
        State::Attacker => table.look_up(&game.code()),
        State::Defender => table.look_up(&game.code()),
    }
}

// The pair of the game's position when it is listed: what is known of it, else (1, 1).
fn listed_pair<G: Game, T: Table>(game: &G, table: &T) -> Pair
    ensures { result ≡ listed (T.storing.shows (T.standing table.now)) (G.current game.now) }
{
    known_pair(game, table).unwrap_or(Pair::FRESH)
}

// The listed pair of the successor number i.
fn listed_move<G: Game, T: Table>(game: &mut G, table: &T, i: usize) -> Pair
    requires { i < length (next (G.current game.old)) }
    ensures at { G.current game.new ≡ G.current game.old }
    ensures path { G.earlier game.new ≡ G.earlier game.old }
    ensures pair { result ≡ listed (T.storing.shows (T.standing table.now)) (slice_index_or (next (G.current game.old)) i nowhere) }
{
    play_move(game, i);
    let pair = listed_pair(game, table);
    take_move_back(game);
    pair
}

// Writes the pairs of the successors of the game's position, in move order.
pub(crate) fn list_pairs<G: Game, T: Table>(game: &mut G, table: &T, places: &mut [Pair])
    requires { length places.old ≡ length (next (G.current game.old)) }
    ensures at { G.current game.new ≡ G.current game.old }
    ensures path { G.earlier game.new ≡ G.earlier game.old }
    ensures pairs { places.new ≡ map (listed (T.storing.shows (T.standing table.now))) (next (G.current game.old)) }
{
    for (i, place) in places.iter_mut().enumerate() {
        *place = listed_move(game, table, i);
    }
}
