// Two makers of logics whose values are plain numbers: chains, and sets of members.
#![tactic(auto)]

pub mod chain;
pub mod sets;
mod within;

#[cfg(test)]
mod tests {
    use crate::chain::Chain;
    use crate::sets::Sets;
    use scale::{Logic, Refusal, Scale};
    use std::test::Fail;

    // The size of a maker's logic, or the number of its refusal.
    fn chain_size(n: u8) -> (u32, u8) {
        match Chain::new(n) {
            Ok(c) => (c.size(), 0),
            Err(why) => (0, why.number()),
        }
    }

    fn sets_size(k: u8) -> (u32, u8) {
        match Sets::new(k) {
            Ok(s) => (s.size(), 0),
            Err(why) => (0, why.number()),
        }
    }

    #[test]
    fn ranges(rt: HostRuntime) {
        assert_eq!(rt; chain_size(0), (0, 10));
        assert_eq!(rt; chain_size(1), (0, 10));
        assert_eq!(rt; chain_size(2), (2, 0));
        assert_eq!(rt; chain_size(64), (64, 0));
        assert_eq!(rt; chain_size(65), (0, 10));
        assert_eq!(rt; sets_size(0), (0, 10));
        assert_eq!(rt; sets_size(1), (2, 0));
        assert_eq!(rt; sets_size(12), (4096, 0));
        assert_eq!(rt; sets_size(13), (0, 10));
        assert_eq!(rt; sets_size(255), (0, 10));
    }

    #[test]
    fn chain_of_three(rt: HostRuntime) -> Result<(), Fail> {
        let c = Chain::new(3)?;
        assert_eq!(rt; c.meet(1, 2), 1);
        assert_eq!(rt; c.join(1, 2), 2);
        assert_eq!(rt; c.join(7, 1), 1, "7 is no value, so it is read as lowest");
        assert_eq!(rt; c.opposite(0), 2);
        assert_eq!(rt; c.opposite(3), 2);
        assert_eq!(rt; c.cut(1), Some(2));
        assert_eq!(rt; c.cut(2), None);
        assert_eq!(rt; c.ceiling(1), Some(1));
        assert_eq!(rt; c.partner(0), Some(1));
        assert_eq!(rt; c.value(3), None);
        assert_eq!(rt; c.number(3), None);
        Ok(())
    }

    #[test]
    fn sets_of_four(rt: HostRuntime) -> Result<(), Fail> {
        let s = Sets::new(4)?;
        assert_eq!(rt; s.meet(12, 10), 8);
        assert_eq!(rt; s.join(12, 10), 14);
        assert!(rt; s.leq(8, 12));
        assert!(rt; !s.leq(12, 8));
        assert_eq!(rt; s.opposite(5), 10);
        assert_eq!(rt; s.opposite(16), 15);
        assert_eq!(rt; s.cut(3), Some(8));
        assert_eq!(rt; s.cut(4), None);
        assert_eq!(rt; s.ceiling(3), Some(7));
        assert_eq!(rt; s.partner(3), Some(3));
        Ok(())
    }
}
