ghost use Rattle.std.specs.Prelude.{Some};
ghost use Rattle.game.specs.States.{word};

use std::fmt;

/// What a position is: ended and won, ended and not won, or the attacker or the defender to move.
#[derive(Clone, Copy, PartialEq, Eq, Debug)]
pub enum State {
    Won,
    NotWon,
    Attacker,
    Defender,
}

/// The words won, not-won, attacker and defender.
impl fmt::Display for State {
    ghost output = { λ s. Some (word s) };

    fn fmt<W: fmt::Write>(&self, f: &mut fmt::Formatter<W>) -> fmt::Result {
        f.write_str(match self {
            State::Won => "won",
            State::NotWon => "not-won",
            State::Attacker => "attacker",
            State::Defender => "defender",
        })
    }
}
