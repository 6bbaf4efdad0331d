ghost use Rattle.std.specs.Prelude.{◌≡◌, Decides};
ghost use Rattle.search_laws.specs.Run.{mover, Reached, turned, handed_down};

use game::State;
use search_laws::Thresholds;
use table::{Pair, Side, TOP};

// The side to move: of a position that has ended, of which no frame is, the attacker.
pub(crate) fn side_of(state: State) -> Side
    ensures { result ≡ mover state }
{
    match state {
        State::Won => Side::Attacker,
        State::NotWon => Side::Attacker,
        State::Attacker => Side::Attacker,
        State::Defender => Side::Defender,
    }
}

// Whether one of a pair's numbers has reached its threshold.
pub(crate) fn has_reached(thresholds: Thresholds, pair: Pair) -> bool
    ensures { Decides result (Reached thresholds pair) }
{
    thresholds.proof <= pair.proof() || thresholds.disproof <= pair.disproof()
}

// Thresholds as the side to move sees them: the defender's are exchanged.
fn turned(side: Side, thresholds: Thresholds) -> Thresholds
    ensures { result ≡ turned side thresholds }
{
    match side {
        Side::Attacker => thresholds,
        Side::Defender => Thresholds {
            proof: thresholds.disproof,
            disproof: thresholds.proof,
        },
    }
}

// The thresholds of the successor that a frame takes, from the frame's own, the least number among the others and their capped sum.
pub(crate) fn hand_down(side: Side, thresholds: Thresholds, second: u32, rest: u32) -> Thresholds
    ensures { result ≡ turned side (handed_down (turned side thresholds) second rest) }
{
    let own = turned(side, thresholds);
    let proof = own.proof.min(second.saturating_add(1));
    let disproof = if own.disproof == TOP {
        TOP
    } else {
        own.disproof.saturating_sub(rest)
    };
    turned(side, Thresholds { proof, disproof })
}
