#![tactic(auto)]

mod ending;
mod sign;
mod theorems;

pub use ending::Ending;
pub use sign::Sign;
pub use theorems::{
    ending_tells, lines_are_read, solutions_agree, solutions_are_right, spent_is_meant,
};
