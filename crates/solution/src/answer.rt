use solution_laws::Ending;

/// What a solution answers: how it ended, how many lines are written, among them how many keys and duals, and the sum of all expansions and
/// entries.
#[derive(Clone, Copy, PartialEq, Eq, Debug)]
pub struct Solution {
    pub ending: Ending,
    pub lines: usize,
    pub keys: usize,
    pub duals: usize,
    pub sum: u64,
}
