// Two makers of logics from others, which nest without end: pairs of logics, and twists over scales.
#![tactic(auto)]

mod halves;
pub mod pair;
pub mod twist;

#[cfg(test)]
mod tests {
    use crate::pair::Pair;
    use crate::twist::Twist;
    use chains::chain::Chain;
    use chains::sets::Sets;
    use scale::{Logic, Scale, numbers};
    use std::test::Fail;

    // The size and the count of cuts.
    fn shape<L: Logic>(l: &L) -> (u32, u32) {
        (l.size(), l.cut_count())
    }

    // The meet and the join of values i and j, and the opposite of value i.
    fn values<L: Logic>(l: &L, i: u32, j: u32) -> (Option<u32>, Option<u32>, Option<u32>) {
        (
            numbers::meet(l, i, j),
            numbers::join(l, i, j),
            numbers::opposite(l, i),
        )
    }

    // The value, the ceiling and the partner of cut j.
    fn cut<L: Logic>(l: &L, j: u32) -> (Option<u32>, Option<u32>, Option<u32>) {
        (numbers::cut(l, j), numbers::ceiling(l, j), l.partner(j))
    }

    #[test]
    fn pair_of_chains_of_three(rt: HostRuntime) -> Result<(), Fail> {
        let l = Pair {
            first: Chain::new(3)?,
            second: Chain::new(3)?,
        };
        assert_eq!(rt; shape(&l), (9, 4));
        assert_eq!(rt; values(&l, 2, 6), (Some(0), Some(8), Some(6)));
        assert_eq!(rt; cut(&l, 0), (Some(3), Some(2), Some(1)));
        assert_eq!(rt; cut(&l, 2), (Some(1), Some(6), Some(3)));
        assert_eq!(rt; cut(&l, 4), (None, None, None));
        Ok(())
    }

    #[test]
    fn twist_over_a_chain_of_two(rt: HostRuntime) -> Result<(), Fail> {
        let l = Twist {
            scale: Chain::new(2)?,
        };
        assert_eq!(rt; shape(&l), (4, 2));
        assert_eq!(rt; values(&l, 1, 2), (Some(0), Some(3), Some(1)));
        assert_eq!(rt; cut(&l, 0), (Some(2), Some(1), Some(1)));
        assert_eq!(rt; cut(&l, 1), (Some(1), Some(2), Some(0)));
        Ok(())
    }

    #[test]
    fn four_thousand_and_ninety_six(rt: HostRuntime) -> Result<(), Fail> {
        let most = Twist {
            scale: Chain::new(64)?,
        };
        assert_eq!(rt; shape(&most), (4096, 126));
        assert_eq!(rt; values(&most, 4095, 0), (Some(0), Some(4095), Some(0)));
        let over = Pair {
            first: Chain::new(64)?,
            second: Sets::new(7)?,
        };
        assert_eq!(rt; shape(&over), (4097, 0));
        assert_eq!(rt; values(&over, 0, 0), (None, None, None));
        assert_eq!(rt; cut(&over, 0), (None, None, None));
        Ok(())
    }

    #[test]
    fn nested(rt: HostRuntime) -> Result<(), Fail> {
        let l = Twist {
            scale: Pair {
                first: Chain::new(2)?,
                second: Sets::new(2)?,
            },
        };
        assert_eq!(rt; shape(&l), (64, 6));
        let deep = Pair {
            first: Twist {
                scale: Chain::new(2)?,
            },
            second: l,
        };
        assert_eq!(rt; shape(&deep), (256, 8));
        assert_eq!(rt; values(&deep, 255, 0), (Some(0), Some(255), Some(0)));
        assert_eq!(rt; shape(&Twist { scale: deep }), (4097, 0));
        Ok(())
    }
}
