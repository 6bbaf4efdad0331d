#![tactic(auto)]

mod direction;
mod edge;
mod places;
mod ray;
mod square;
mod squares;
mod words;

pub use direction::Direction;
pub use ray::Ray;
pub use square::Square;
pub use squares::Squares;
pub use words::count;
