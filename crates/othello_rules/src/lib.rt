#![tactic(auto)]

mod diagram;
mod flips;
mod letters;
mod listing;
mod placements;
mod placing;
mod reader;
mod reading;
mod roles;
mod side;
mod turn;

pub use diagram::Diagram;
pub use flips::{placing_holds, turning_holds};
pub use placements::Placements;
pub use placing::placements_leave_one;
pub use reading::read;
pub use side::Side;
pub use turn::Turn;
