ghost use Rattle.std.specs.Prelude.{◌≡◌, MatchResult};
ghost use Rattle.game.specs.Tree.{position, refused};
ghost use Rattle.game.specs.Declines.{number};
ghost use Rattle.othello.specs.Positions.{tree_of};
ghost use Rattle.othello.specs.Setting.{reading, Taken, Declined};

use crate::Position;
use game::{Decline, SetDecline};

const LARGEST_AIM: u32 = 64;

const MOST_EMPTIES: u32 = 14;

/// The position that a text says under an aim, its mover the attacker, or why it is declined.
pub fn set_up(text: &[u8], aim: u32) -> Result<Position, SetDecline>
    ensures exact { MatchResult result
        (λ p. reading text.now aim ≡ position (tree_of p))
        (λ e. reading text.now aim ≡ refused (number e.cause) e.place) }
    ensures meaning { MatchResult result
        (λ p. Taken text.now aim p)
        (λ e. Declined text.now aim (number e.cause) e.place) }
{
    if aim > LARGEST_AIM {
        return Err(Decline::Aim.into());
    }
    let diagram = othello_rules::read(text).map_err(SetDecline::at)?;
    if diagram.empties() > MOST_EMPTIES {
        return Err(Decline::Empties.into());
    }
    Ok(Position {
        diagram,
        attacker: diagram.mover,
        aim: aim as u8,
    })
}
