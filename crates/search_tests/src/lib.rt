#![tactic(auto)]

// Trials on a pile of stones, counted by hand.
#[cfg(test)]
mod tests {
    use game::{Decline, Game};
    use search::trial;
    use search_laws::{Answer, Verdict};
    use std::process::Abort;
    use stones::Stones;
    use table::{Newest, NoTable, Pair, Table, slot_of};
    use table_tests::TwoWays;

    fn answer(verdict: Verdict, expansions: u32, entries: u32) -> Result<Answer, Decline> {
        Ok(Answer {
            verdict,
            expansions,
            entries,
        })
    }

    fn tried<T: Table>(game: &mut Stones, table: &mut T, budget: u32) -> Result<Answer, Decline> {
        let mut records = [Pair::FRESH; search::RECORDS];
        trial(game, table, budget, &mut records)
    }

    /// Trials of the fresh pile, one after another over one table, each with its budget and its answer.
    fn all_answer<T: Table>(rt: &impl Abort, table: &mut T, cases: &[(u32, Verdict, u32, u32)]) {
        let mut game = Stones::fresh();
        for (budget, verdict, expansions, entries) in cases {
            assert_eq!(rt;
                tried(&mut game, table, *budget),
                answer(*verdict, *expansions, *entries),
                "budget {budget}"
            );
        }
    }

    #[test]
    fn without_a_table(rt: HostRuntime) {
        let cases = [
            (0, Verdict::Spent, 0, 0),
            (1, Verdict::Spent, 0, 1),
            (8, Verdict::Spent, 4, 4),
            (9, Verdict::Won, 4, 5),
            (11, Verdict::Won, 5, 5),
            (12, Verdict::Won, 6, 0),
            (99_999_999, Verdict::Won, 6, 0),
        ];
        all_answer(&rt, &mut NoTable, &cases);
    }

    // With what the first trials found the fresh pile is shown in four expansions, and is known from then on.
    const KEPT: [(u32, Verdict, u32, u32); 5] = [
        (4, Verdict::Spent, 2, 2),
        (6, Verdict::Spent, 3, 3),
        (8, Verdict::Won, 4, 0),
        (8, Verdict::Won, 0, 0),
        (0, Verdict::Won, 0, 0),
    ];

    #[test]
    fn with_the_newest(rt: HostRuntime) {
        all_answer(&rt, &mut Newest::new(), &KEPT);
    }

    // No two piles have one slot.
    #[test]
    fn with_two_ways(rt: HostRuntime) {
        all_answer(&rt, &mut TwoWays::new(), &KEPT);
    }

    // Codes that no pile has, of the slot of the fresh pile.
    const OTHER: [u64; 5] = [4, 1, 0, 0, 854];

    const THIRD: [u64; 5] = [4, 1, 0, 0, 1125];

    #[test]
    fn three_of_one_slot(rt: HostRuntime) {
        let slot = slot_of(&Stones::fresh().code());
        assert_eq!(rt; slot_of(&OTHER), slot);
        assert_eq!(rt; slot_of(&THIRD), slot);
    }

    // The fresh pile stands beside one other code, however often that one is stored, and a third overwrites it, as it was stored longer ago.
    // What its moves lead to is still known.
    #[test]
    fn two_ways_forget_the_pile_stored_longer_ago(rt: HostRuntime) {
        let mut table = TwoWays::new();
        all_answer(&rt, &mut table, &[(12, Verdict::Won, 6, 0)]);
        table.store(&OTHER, Pair::FRESH);
        table.store(&OTHER, Pair::NOT_WON);
        all_answer(&rt, &mut table, &[(0, Verdict::Won, 0, 0)]);
        table.store(&THIRD, Pair::FRESH);
        all_answer(
            &rt,
            &mut table,
            &[(0, Verdict::Spent, 0, 0), (2, Verdict::Won, 1, 0)],
        );
        assert_eq!(rt; table.look_up(&OTHER), None);
        assert_eq!(rt; table.look_up(&THIRD), Some(Pair::FRESH));
    }

    // Where the other code was stored before the trial, it is the one that goes.
    #[test]
    fn two_ways_keep_the_pile_stored_last(rt: HostRuntime) {
        let mut table = TwoWays::new();
        table.store(&OTHER, Pair::FRESH);
        all_answer(&rt, &mut table, &[(12, Verdict::Won, 6, 0)]);
        table.store(&THIRD, Pair::FRESH);
        all_answer(&rt, &mut table, &[(0, Verdict::Won, 0, 0)]);
        assert_eq!(rt; table.look_up(&OTHER), None);
    }

    #[test]
    fn declined_in_order(rt: HostRuntime) {
        let mut game = Stones::fresh();
        let mut records = [Pair::FRESH; 6143];
        assert_eq!(rt;
            trial(&mut game, &mut NoTable, 100_000_000, &mut records),
            Err(Decline::Budget)
        );
        assert_eq!(rt;
            trial(&mut game, &mut NoTable, 99_999_999, &mut records),
            Err(Decline::Records)
        );
    }
}
