#![tactic(auto)]

mod decline;
mod game;
mod own_cause;
mod path;
mod paths;
mod played;
mod playing;
mod position;
mod same;
mod state;

pub use decline::{Decline, SetDecline, number_tells};
pub use game::Game;
pub use own_cause::OwnCause;
pub use path::Path;
pub use played::Played;
pub use position::Position;
pub use same::{codes_tell, same_position};
pub use state::State;
