#![tactic(auto)]

mod attempt;
mod budget;
mod choice;
mod entry;
mod frame;
mod listing;
mod path;
mod plain;
mod proof_number;
mod records;
mod unwind;

pub use attempt::{trial, try_position};
pub use budget::{Budget, MOST};
pub use records::{RECORDS, Records};
