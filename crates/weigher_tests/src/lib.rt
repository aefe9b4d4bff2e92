//! Figures of small lists under the shipped piles, and under a deeper one.
#![tactic(auto)]

#[cfg(test)]
mod tests {
    use weigher::layers::{ByLabel, LabelBelow};
    use weigher::piles::{Lots, Pile, Timed, buttons_figure, lots_figure, timed_figure};
    use weigher::plain::{Blind, Sum};
    use weigher::weigh_list;

    #[test]
    fn weighs_by_the_piles(rt: HostRuntime) {
        assert_eq!(rt; buttons_figure(0, 0, &[]), 0);
        assert_eq!(rt; buttons_figure(0, 0, &[0]), 1);
        assert_eq!(rt; timed_figure(0, 47, &[3, 4]), 1);
        assert_eq!(rt; timed_figure(0, 48, &[3, -4]), 3);
        assert_eq!(rt; timed_figure(0, 48, &[]), 2_147_483_648);
        assert_eq!(rt; lots_figure(0, 0, &[5, -5]), 1);
        assert_eq!(rt; lots_figure(1, 0, &[5, -5]), 0);
        assert_eq!(rt; lots_figure(3, 0, &[i32::MAX, 1]), 2_147_483_648);
    }

    #[test]
    fn weighs_by_a_deeper_pile(rt: HostRuntime) {
        let pile = ByLabel {
            choice: LabelBelow { cut: 10 },
            first: Lots::PILE,
            second: Timed::PILE,
        };
        assert_eq!(rt; weigh_list(&pile, 1, 9, &[2, 3]), 5);
        assert_eq!(rt; weigh_list(&pile, 1, 57, &[2, 3]), 1);
        assert_eq!(rt; weigh_list(&pile, 1, 58, &[2, 3]), 3);
        assert_eq!(rt; weigh_list(&Blind, 0, 0, &[7]), 0);
        assert_eq!(rt;
            weigh_list(&Sum, 0, 0, &[i32::MIN, i32::MIN]),
            -4_294_967_296
        );
    }
}
