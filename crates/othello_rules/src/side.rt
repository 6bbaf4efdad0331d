/// The two sides, by the letters of their discs.
#[derive(Clone, Copy, Debug, Eq, PartialEq)]
pub enum Side {
    X,
    O,
}
