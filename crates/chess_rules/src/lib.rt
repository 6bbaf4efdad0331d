#![tactic(auto)]

mod playing;
mod position;
mod rules;

pub use playing::legal_moves_keep;
pub use position::Position;
pub use rules::is_lawful;
