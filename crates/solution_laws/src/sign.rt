/// What a line's move is.
#[derive(Clone, Copy, PartialEq, Eq, Debug)]
pub enum Sign {
    /// the attacker's that the solution follows, written `!`
    Chosen,
    /// another of the attacker's that wins too, written `+`
    Other,
    /// a defender's, written `.`
    Reply,
}
