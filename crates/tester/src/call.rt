/// A call of a tester, by what it is passed but for what it is lent: the pair records and the buffer.
#[derive(Clone, Copy)]
pub enum Call<'a> {
    /// Sets up what the text says under the aim.
    Set { text: &'a [u8], aim: u32 },
    /// Plays the move of that number.
    Play(usize),
    /// Takes the last move back.
    TakeBack,
    /// Tries, within that budget, whether the attacker wins.
    Trial(u32),
    /// Solves the position, with the budget for each trial. The line `!` of the first ply is for the move of the number `intended`, if it wins.
    Solution { intended: usize, budget: u32 },
    /// Empties the table.
    Clear,
}
