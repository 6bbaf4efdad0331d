#![tactic(auto)]

mod call;
mod methods;
mod perform;
mod reply;
mod round;
mod rounds;
mod tester;
mod theorems;

pub use call::Call;
pub use reply::Reply;
pub use round::Round;
pub use tester::Tester;
pub use theorems::{every_list_stands, one_way, records_are_not_read};
