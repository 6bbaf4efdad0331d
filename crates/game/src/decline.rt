ghost use Rattle.std.specs.Prelude.{◌≡◌};
ghost use Rattle.game.specs.Declines.{number, NumberTells};

use crate::OwnCause;

/// Why a call is declined, in the order in which the causes are checked. Each has the number by which it is known: the ten that have a name have
/// 1 to 10, and any other is a game's own.
#[derive(Clone, Copy, PartialEq, Eq, Debug)]
pub enum Decline {
    /// The budget is above 99,999,999.
    Budget,
    /// Fewer than 6,144 pair records are lent.
    Records,
    /// The solution buffer's length is no multiple of 8, or over 32,768.
    Buffer,
    /// A solution is wanted where the attacker is not to move.
    NotAttacker,
    /// The move number is not below the count of moves.
    MoveNumber,
    /// The path has one position, so none can be taken back.
    TakeBack,
    /// The aim is not one of the game's.
    Aim,
    /// The text departs from its form.
    Form,
    /// The chess diagram breaks a rule of positions.
    Unlawful,
    /// The Othello position has too many empty squares.
    Empties,
    /// A cause of a game's own: its reading refuses the text.
    Own(OwnCause),
}

impl Decline {
    /// The number by which the cause is known.
    pub fn number(self) -> u8
        ensures { result ≡ number self }
    {
        match self {
            Decline::Budget => 1,
            Decline::Records => 2,
            Decline::Buffer => 3,
            Decline::NotAttacker => 4,
            Decline::MoveNumber => 5,
            Decline::TakeBack => 6,
            Decline::Aim => 7,
            Decline::Form => 8,
            Decline::Unlawful => 9,
            Decline::Empties => 10,
            Decline::Own(cause) => cause.number(),
        }
    }
}

/// Causes of the same number are the same: a number tells its cause.
pub fn number_tells()
    ensures { NumberTells }
{}

/// Why a text is not set up: the cause, and the place in the text, which is 0 but for a departure from the form.
#[derive(Clone, Copy, PartialEq, Eq, Debug)]
pub struct SetDecline {
    pub cause: Decline,
    pub place: usize,
}

impl SetDecline {
    /// The text departs from its form at a place.
    pub fn at(place: usize) -> SetDecline
        ensures cause { number result.cause ≡ 8 }
        ensures place { result.place ≡ place }
    {
        SetDecline {
            cause: Decline::Form,
            place,
        }
    }
}

impl From<Decline> for SetDecline {
    ghost from_gives = { λ c r. (number r.cause ≡ number c) × (r.place ≡ 0) };

    fn from(cause: Decline) -> SetDecline {
        SetDecline { cause, place: 0 }
    }
}
