#![tactic(auto)]

mod two_ways;

pub use two_ways::TwoWays;

// Cases of the table's arithmetic and of its policies.
#[cfg(test)]
mod tests {
    use crate::TwoWays;
    use table::{Figures, Newest, NoTable, Pair, Side, TOP, Table, capped_sum, remember, slot_of};

    // Three codes of one slot, and one of another.
    const FIRST: [u64; 5] = [1, 2, 3, 4, 5];

    const SECOND: [u64; 5] = [1, 2, 3, 4, 339];

    const THIRD: [u64; 5] = [1, 2, 3, 4, 1058];

    const APART: [u64; 5] = [1, 2, 3, 4, 7];

    #[test]
    fn capped_sums(rt: HostRuntime) {
        let cases = [
            (0, 0, 0),
            (1, 2, 3),
            (999_999_999, 0, 999_999_999),
            (999_999_999, 1, 999_999_999),
            (500_000_000, 500_000_000, 999_999_999),
            (500_000_000, 499_999_999, 999_999_999),
            (499_999_999, 499_999_999, 999_999_998),
            (TOP, 0, TOP),
            (0, TOP, TOP),
            (TOP, TOP, TOP),
            (4_294_967_295, 4_294_967_295, 999_999_999),
        ];
        for (a, b, sum) in cases {
            assert_eq!(rt; capped_sum(a, b), sum);
        }
    }

    #[test]
    fn formed_pairs(rt: HostRuntime) {
        assert_eq!(rt; Pair::new(0, TOP), Some(Pair::WON));
        assert_eq!(rt; Pair::new(TOP, 0), Some(Pair::NOT_WON));
        assert_eq!(rt; Pair::new(1, 1), Some(Pair::FRESH));
        assert_eq!(rt; Pair::new(0, 1), None);
        assert_eq!(rt; Pair::new(TOP, TOP), None);
    }

    #[test]
    fn frames(rt: HostRuntime) {
        let pairs = [
            Pair::NOT_WON,
            Pair::new(3, 7).unwrap_or(Pair::FRESH),
            Pair::new(2, 999_999_998).unwrap_or(Pair::FRESH),
            Pair::new(2, 1).unwrap_or(Pair::FRESH),
        ];
        let attacker = Figures::of(&pairs, Side::Attacker);
        assert_eq!(rt; Some(attacker.pair), Pair::new(2, 999_999_999));
        assert_eq!(rt; attacker.place, 2);
        assert_eq!(rt; attacker.second, 2);
        assert_eq!(rt; attacker.rest, 8);
        let defender = Figures::of(&pairs, Side::Defender);
        assert_eq!(rt; defender.pair, Pair::NOT_WON);
        assert_eq!(rt; defender.place, 0);
        assert_eq!(rt; defender.second, 1);
        assert_eq!(rt; defender.rest, 7);
    }

    #[test]
    fn none_keeps_nothing(rt: HostRuntime) {
        let mut table = NoTable;
        assert_eq!(rt; remember(&mut table, &[1, 2, 3, 4, 5], Pair::WON), None);
    }

    #[test]
    fn slots_of_codes(rt: HostRuntime) {
        assert_eq!(rt; slot_of(&FIRST), 359);
        assert_eq!(rt; slot_of(&SECOND), 359);
        assert_eq!(rt; slot_of(&THIRD), 359);
        assert_eq!(rt; slot_of(&APART), 249);
        assert_eq!(rt; slot_of(&[0; 5]), 0);
        assert_eq!(rt; slot_of(&[0, 0, 0, 0, 1]), 311);
    }

    #[test]
    fn newest_overwrites(rt: HostRuntime) {
        let mut table = Newest::new();
        assert_eq!(rt; remember(&mut table, &FIRST, Pair::WON), Some(Pair::WON));
        assert_eq!(rt;
            remember(&mut table, &APART, Pair::FRESH),
            Some(Pair::FRESH)
        );
        assert_eq!(rt; table.look_up(&[1, 2, 3, 4, 6]), None);
        assert_eq!(rt;
            remember(&mut table, &SECOND, Pair::NOT_WON),
            Some(Pair::NOT_WON)
        );
        assert_eq!(rt; table.look_up(&FIRST), None);
        assert_eq!(rt; table.look_up(&APART), Some(Pair::FRESH));
        table.clear();
        assert_eq!(rt; table.look_up(&APART), None);
    }

    #[test]
    fn two_stand_side_by_side(rt: HostRuntime) {
        let mut table = TwoWays::new();
        assert_eq!(rt; remember(&mut table, &FIRST, Pair::WON), Some(Pair::WON));
        assert_eq!(rt;
            remember(&mut table, &SECOND, Pair::NOT_WON),
            Some(Pair::NOT_WON)
        );
        assert_eq!(rt; table.look_up(&FIRST), Some(Pair::WON));
        assert_eq!(rt; table.look_up(&THIRD), None);
        assert_eq!(rt; table.look_up(&APART), None);
        table.clear();
        assert_eq!(rt; table.look_up(&FIRST), None);
        assert_eq!(rt; table.look_up(&SECOND), None);
    }

    #[test]
    fn a_third_overwrites_the_one_stored_longer_ago(rt: HostRuntime) {
        let mut table = TwoWays::default();
        table.store(&FIRST, Pair::WON);
        table.store(&SECOND, Pair::NOT_WON);
        table.store(&FIRST, Pair::FRESH);
        table.store(&THIRD, Pair::WON);
        assert_eq!(rt; table.look_up(&FIRST), Some(Pair::FRESH));
        assert_eq!(rt; table.look_up(&SECOND), None);
        assert_eq!(rt; table.look_up(&THIRD), Some(Pair::WON));
    }

    #[test]
    fn tables_that_show_the_same_go_on_differently(rt: HostRuntime) {
        let mut one = TwoWays::new();
        one.store(&FIRST, Pair::WON);
        one.store(&SECOND, Pair::NOT_WON);
        let mut two = TwoWays::new();
        two.store(&SECOND, Pair::NOT_WON);
        two.store(&FIRST, Pair::WON);
        for code in [FIRST, SECOND, THIRD, APART] {
            assert_eq!(rt; one.look_up(&code), two.look_up(&code));
        }
        one.store(&THIRD, Pair::FRESH);
        two.store(&THIRD, Pair::FRESH);
        assert_eq!(rt; one.look_up(&FIRST), None);
        assert_eq!(rt; one.look_up(&SECOND), Some(Pair::NOT_WON));
        assert_eq!(rt; two.look_up(&FIRST), Some(Pair::WON));
        assert_eq!(rt; two.look_up(&SECOND), None);
    }
}
