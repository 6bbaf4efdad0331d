#![tactic(auto)]

mod attack;
mod commands;
mod look;
mod men;

pub use attack::{attacked, in_check};
pub use commands::{commanded, line, man_on};
pub use look::beside;
pub use men::{Board, Kind, Man, Side, holds, holds_man};
