#![tactic(auto)]

mod open;
mod shown;

pub use open::{OpenPile, OpenStones};
pub use shown::is_shown_won;

#[cfg(test)]
mod tests;
